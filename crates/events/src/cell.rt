// A field to be written: a letter or a figure.
ghost use Rattle.std.specs.Prelude.{◌≡◌, ◌∷◌};
ghost use Rattle.page.specs.Writes.{Wrote};
ghost use Rattle.events.specs.declared.cell.Cell.TheVariants.{Figure};
ghost use Rattle.events.specs.Carried.{is_short};
ghost use Rattle.events.specs.Writing.{text_of};

use figures::reported::Figure;
use page::{Full, Page};

#[derive(Clone, Copy)]
pub(crate) enum Cell {
    Letter(u8),
    Figure(u64),
}

/// A field that a method does not use.
pub(crate) const UNUSED: Cell = Cell::Letter(b'0');

impl Cell {
    /// A figure without its unit, as a field holds it.
    pub(crate) fn figure<F: Figure>(figure: F) -> Cell
        ensures { result ≡ Figure (F.Figure.size figure) }
    {
        Cell::Figure(figure.size())
    }

    /// Whether a field holds it: a figure of at most 13 digits.
    #[tactic(auto, using(crate::proofs::Digits::short_figure))]
    pub(crate) fn is_short(&self) -> bool
        ensures { result ≡ is_short (text_of self.now) }
    {
        match *self {
            Cell::Letter(_) => true,
            Cell::Figure(n) => n < 10_000_000_000_000,
        }
    }

    /// Writes the field after a comma.
    pub(crate) fn write(self, page: &mut Page) -> Result<(), Full>
        ensures { Wrote page.old page.new result (44 ∷ text_of self) }
    {
        page.push(b',')?;
        match self {
            Cell::Letter(letter) => page.push(letter),
            Cell::Figure(n) => page.figure(n),
        }
    }
}
