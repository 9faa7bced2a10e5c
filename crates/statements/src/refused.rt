// Why there is no statement.
ghost use Rattle.std.specs.Prelude.{◌≡◌, Some};
ghost use Rattle.statements.specs.declared.refused.Refused.TheVariants.{Figures, Page};
ghost use Rattle.statements.specs.Refusals.{refused_number, message};

use figures::reported::OutOfLimits;
use page::Full;
use std::error::Error;
use std::fmt;

/// What a statement was refused for, each under the number of the question that was answered no.
#[derive(Clone, Copy, Debug, PartialEq, Eq)]
pub enum Refused {
    Figures = 2,
    Page = 21,
    Text = 22,
}

impl Refused {
    pub fn number(self) -> u32
        ensures { result ≡ refused_number self }
    {
        self as u32
    }
}

impl fmt::Display for Refused {
    ghost output = { λ refused. Some (message refused) };

    fn fmt<W: fmt::Write>(&self, f: &mut fmt::Formatter<W>) -> fmt::Result {
        f.write_str(match self {
            Refused::Figures => {
                "refused by question 2: are the tariff's number (1 to 4) and the opening day (0 to 18262) in limits?"
            }
            Refused::Page => "refused by question 21: does the result fit the page?",
            Refused::Text => "refused by question 22: has the text 1 to 65536 bytes?",
        })
    }
}

impl Error for Refused {}

impl From<OutOfLimits> for Refused {
    ghost from_gives = { λ _ r. r ≡ Figures };

    fn from(_: OutOfLimits) -> Refused {
        Refused::Figures
    }
}

impl From<Full> for Refused {
    ghost from_gives = { λ _ r. r ≡ Page };

    fn from(_: Full) -> Refused {
        Refused::Page
    }
}
