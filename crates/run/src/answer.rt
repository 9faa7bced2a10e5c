// What a call is answered.
use account::refusal::Refusal;
use figures::money::{Charge, Money, Payment};

/// What an accepted call did, each kind in its own unit.
#[derive(Clone, Copy)]
pub enum Done {
    /// The hold of this number was granted.
    Granted(u32),
    HandedBack,
    /// A period was billed or estimated, at this charge.
    Billed(Charge),
    /// Rows were corrected, which comes to this.
    Corrected(Money),
    Paid(Payment),
}

/// What was done, or the question that refused the call.
pub type Answer = Result<Done, Refusal>;

impl Done {
    ghost use Rattle.std.specs.Prelude.{◌≡◌};
    ghost use Rattle.run.specs.Calls.{value_of};

    /// The value that an accepted call gives, beside the number 0.
    pub fn value(self) -> i64
        ensures { result ≡ value_of self }
    {
        match self {
            Done::Granted(hold) => i64::from(hold),
            Done::HandedBack => 0,
            Done::Billed(charge) => charge.figure.0 as i64,
            Done::Corrected(u) => u.0,
            Done::Paid(payment) => payment.cents.0 as i64,
        }
    }
}
