// Holds: taken by a clerk, handed back, or taken over once their time has run out.
ghost use Rattle.std.specs.Prelude.{◌≡◌, ℕ, ◌+◌, ◌<◌, ◌≤◌};
ghost use Rattle.rules.specs.Subject.{take as taking, hand_back};
ghost use Rattle.rules.specs.Questions.{question, is_free};
ghost use Rattle.rules.specs.Machine.{view};
ghost use Rattle.account.specs.declared.refusal.Refusal.TheVariants.{Held};
ghost use Rattle.account.specs.State.{state_of, opening_of, Stepped, LawfulAfter};
ghost use Rattle.account.specs.Answers.{Says, Asked, taken_answer, handed_answer};

use crate::account::{Account, Hold};
use crate::refusal::Refusal;
use tariff::tariff::Tariff;

impl<'a, T: Tariff> Account<'a, T> {
    /// Whether no hold stands, or it has run out.
    fn is_free(&self, moment: u64) -> Result<(), Refusal>
        ensures { Says (is_free (view (state_of self.now)) moment) (λ _. Unit {0}) Held result }
    {
        match self.holding {
            Some(h) if h.until > moment => Err(Refusal::Held),
            _ => Ok(()),
        }
    }

    /// The questions of a take; the next hold's number.
    fn ask_take(&self, moment: u64, span: u64) -> Result<u32, Refusal>
        ensures { Asked (question (opening_of self.now) (view (state_of self.now)) (taking moment span)) (λ n. (n ≡ self.now.granted + 1) × (moment ≤ 1000000000000) × (span ≤ 86400)) result }
    {
        if moment > 1_000_000_000_000 || span < 1 || span > 86_400 {
            return Err(Refusal::Figures);
        }
        self.is_free(moment)?;
        if self.granted == u32::MAX {
            return Err(Refusal::NoNumber);
        }
        Ok(self.granted + 1)
    }

    /// Grants the next hold, for `span` seconds from `moment` on.
    pub fn take(&mut self, moment: u64, span: u64) -> Result<u32, Refusal>
        ensures after { Stepped T.Tariff.meaning self.old self.new (taking moment span) (taken_answer result) }
        ensures law { LawfulAfter T.Tariff.meaning self.old self.new (taking moment span) (taken_answer result) }
    {
        let number = self.ask_take(moment, span)?;
        self.granted = number;
        self.holding = Some(Hold {
            number,
            until: moment + span,
        });
        Ok(number)
    }

    /// Hands a hold back. A hold that was taken over no longer stands, so it cannot be handed back.
    pub fn hand_back(&mut self, hold: u64) -> Result<(), Refusal>
        ensures after { Stepped T.Tariff.meaning self.old self.new (hand_back hold) (handed_answer result) }
        ensures law { LawfulAfter T.Tariff.meaning self.old self.new (hand_back hold) (handed_answer result) }
    {
        let _ = self.held(hold)?;
        self.holding = None;
        Ok(())
    }
}
