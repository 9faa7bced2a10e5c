// The account: its tariff, its holds, its sums, its sheet and its journal.
ghost use Rattle.std.specs.Prelude.{◌≡◌, min, length, true};
ghost use Rattle.rules.specs.Journal.{cents_of};
ghost use Rattle.account.specs.Few.{six_at_most};
ghost use Rattle.book.specs.Pages.{pages_of};
ghost use Rattle.account.specs.Lines.{lines_of};
ghost use Rattle.account.specs.Rows.{filled_periods};

use crate::sums::Sums;
use book::kept::Book;
use figures::dates::Day;
use figures::line::Line;
use figures::row::Row;

/// A clerk's right to change the account, until another take from that second on.
#[derive(Clone, Copy)]
pub struct Hold {
    pub number: u32,
    pub until: u64,
}

/// The sums hold what the journal's lines moved: the balance is the sum of their cents, and each sum is small while the journal
/// is. At most six rows of an unmetered run are estimated, so a correction for the cause absent rewrites no more; any other has
/// at most twelve by its span. Each of the calls takes by name what a clerk's call carries: a struct of hold, finding or method
/// would be made for one call and taken apart in it.
#[derive(Drop)]
pub struct Account<'a, T> {
    pub(crate) tariff: T,
    pub(crate) opening: Day,
    pub(crate) granted: u32,
    pub(crate) holding: Option<Hold>,
    pub(crate) sums: Sums,
    pub(crate) sheet: Book<'a, Row>,
    pub(crate) journal: Book<'a, Line>,
    ghost sheet_limit: { sheet.limit ≡ min (length sheet.memory.now) 120 },
    ghost journal_limit: { journal.limit ≡ min (length journal.memory.now) 1024 },
    ghost counted: { sums.lines ≡ journal.filled },
    ghost moved: { sums.balance.0 ≡ cents_of (lines_of (pages_of journal)) },
    ghost runs: { six_at_most 0 (filled_periods (pages_of sheet)) ≡ true },
}
