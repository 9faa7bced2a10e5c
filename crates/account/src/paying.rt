// Payments.
ghost use Rattle.std.specs.Prelude.{◌≡◌, ℕ, ◌+◌, ◌<◌, ◌≤◌};
ghost use Rattle.rules.specs.Subject.{pay};
ghost use Rattle.rules.specs.Questions.{question};
ghost use Rattle.rules.specs.Machine.{view};
ghost use Rattle.account.specs.State.{state_of, opening_of, Stepped, LawfulAfter};
ghost use Rattle.account.specs.Answers.{Asked, paid_answer};

use crate::account::Account;
use crate::refusal::Refusal;
use figures::line::{Letter, Line};
use figures::money::Payment;
use figures::reported::Cents;
use tariff::tariff::Tariff;

/// A payment that every question has passed.
#[derive(Clone, Copy)]
struct Paying {
    hold: u32,
    payment: Payment,
}

impl<'a, T: Tariff> Account<'a, T> {
    /// The questions of a payment.
    fn ask_pay(&self, hold: u64, cents: Cents) -> Result<Paying, Refusal>
        ensures { Asked (question (opening_of self.now) (view (state_of self.now)) (pay hold cents.0)) (λ p. (p.hold ≡ hold) × (p.payment.cents.0 ≡ cents.0) × (self.now.journal.filled + 1 ≤ self.now.journal.limit)) result }
    {
        let hold = self.held(hold)?;
        let payment = Payment::new(cents)?;
        self.journal_takes(1)?;
        Ok(Paying { hold, payment })
    }

    /// A payment lowers the amount due and the balance; its line names no row.
    pub fn pay(&mut self, hold: u64, cents: Cents) -> Result<Payment, Refusal>
        ensures after { Stepped T.Tariff.meaning self.old self.new (pay hold cents.0) (paid_answer result) }
        ensures law { LawfulAfter T.Tariff.meaning self.old self.new (pay hold cents.0) (paid_answer result) }
    {
        let Paying { hold, payment } = self.ask_pay(hold, cents)?;
        let _ = self.journal.append(Line {
            hold,
            letter: Letter::Payment,
            row: None,
            cents: payment.negated(),
        });
        self.sums.pay(payment);
        Ok(payment)
    }
}
