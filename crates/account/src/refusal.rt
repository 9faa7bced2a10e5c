// What a call answers where it is refused: each refusal is a question that was answered no.
ghost use Rattle.std.specs.Prelude.{◌≡◌};
ghost use Rattle.account.specs.declared.refusal.Refusal.TheVariants.{Figures};
ghost use Rattle.account.specs.Answers.{number_of};

use figures::reported::OutOfLimits;

/// Each is numbered as the question that was answered no.
#[derive(Clone, Copy, Debug, PartialEq, Eq)]
pub enum Refusal {
    /// The named hold does not stand.
    NoHold = 1,
    /// A figure is out of its limits.
    Figures = 2,
    /// The sheet has no place.
    SheetFull = 3,
    /// The period has no lawful number of days.
    Period = 4,
    /// The span is not billed.
    NotBilled = 5,
    /// A row is not of the cause's sort, or an unmetered one that adjoins is left out.
    WrongSort = 6,
    /// The span breaks the rest of its cause's rule.
    WrongSpan = 7,
    /// The method does not name the use, or does not fit.
    NoFit = 8,
    /// A share is over 1,000,000.
    ShareTooLarge = 9,
    /// The journal has not lines enough.
    JournalFull = 10,
    /// Another hold stands.
    Held = 11,
    /// No number is left for a hold.
    NoNumber = 12,
}

impl Refusal {
    /// The number of the question.
    pub fn number(self) -> u32
        ensures { result ≡ number_of self }
    {
        self as u32
    }
}

impl From<OutOfLimits> for Refusal {
    ghost from_gives = { λ _ r. r ≡ Figures };

    fn from(_: OutOfLimits) -> Refusal {
        Refusal::Figures
    }
}
