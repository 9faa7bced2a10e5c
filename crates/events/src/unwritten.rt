// Why an event is not written.
ghost use Rattle.std.specs.Prelude.{◌≡◌};
ghost use Rattle.events.specs.declared.unwritten.Unwritten.TheVariants.{Page};
ghost use Rattle.events.specs.Writing.{unwritten_number};

use page::Full;

/// What the writing of an event was refused for, each under the number of the question that was answered no.
#[derive(Clone, Copy, Debug, PartialEq, Eq)]
pub enum Unwritten {
    /// One of its figures has more digits than a field holds.
    NoLine = 19,
    /// Its line does not fit the page.
    Page = 21,
}

impl Unwritten {
    pub fn number(self) -> u32
        ensures { result ≡ unwritten_number self }
    {
        self as u32
    }
}

impl From<Full> for Unwritten {
    ghost from_gives = { λ e unwritten. unwritten ≡ Page };

    fn from(_: Full) -> Unwritten {
        Unwritten::Page
    }
}
