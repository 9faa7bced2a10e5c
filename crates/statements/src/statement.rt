// The statement of a text.
ghost use Rattle.std.specs.Prelude.{◌≡◌, ◌≤◌, [], ◌∷◌, length, Ok, Err, IfOk};
ghost use Rattle.rules.specs.Questions.{is_day};
ghost use Rattle.tariff.specs.Hotel.{numbered};
ghost use Rattle.tariff.specs.Meaning.{changed};
ghost use Rattle.tariff.specs.Meant.{plain_of, by_demand_of};
ghost use Rattle.statements.specs.Stated.{opened_on, text_asked, Stated, StatedFor, LawfulPage};
ghost use Rattle.page.specs.Answered.{value_of, cleared};
ghost use Rattle.statements.specs.Refusals.{number_of};

use crate::refused::Refused;
use crate::writing::write;
use account::account::Account;
use account::memory::Memory;
use figures::line::EMPTY;
use figures::reported::{Kva, OutOfLimits};
use figures::row::BLANK;
use tariff::by_demand::ByDemand;
use tariff::changeover::Changeover;
use tariff::hotel::{h1, h2, h2_time_of_day};
use tariff::plain::Plain;
use tariff::tariff::Tariff;

/// The statement of a text under one tariff; a refused one leaves anything on the page.
fn statement_under<T: Tariff + Drop>(
    tariff: T,
    opening: u64,
    text: &[u8],
    page: &mut [u8],
) -> Result<usize, Refused>
    ensures { Stated (T.Tariff.meaning tariff) (opened_on opening)
        ((2, is_day opening) ∷ text_asked (T.Tariff.meaning tariff) (opened_on opening) text.now (length page.old))
        text.now page.old (cleared result page.new) (number_of result) (value_of result) }
{
    // arrays as large as an account can use: there is no heap here
    let mut rows = [BLANK; 120];
    let mut journal = [EMPTY; 1024];
    let mut memory = Memory {
        sheet: &mut rows,
        journal: &mut journal,
    };
    let Ok(mut account) = Account::open(tariff, opening, &mut memory) else {
        return Err(Refused::Figures);
    };
    if text.is_empty() || text.len() > 65_536 {
        return Err(Refused::Text);
    }
    Ok(write(&mut account, text, page)?)
}

/// H-1 at 10 kVA, and from day 365 on H-2.
fn changeover() -> Result<Changeover<Plain, ByDemand>, OutOfLimits>
    ensures { elim result [ Ok t ↦ changed t.day.figure (plain_of t.first) (by_demand_of t.second) ≡ numbered 4 | Err _ ↦ ⊥ ] }
{
    Changeover::new(h1(Kva(10))?, h2(), 365)
}

/// The statement of a text under the tariff of this number, by which the office's C program names it; a refused one leaves
/// anything on the page.
fn statement_numbered(
    tariff: u64,
    opening: u64,
    text: &[u8],
    page: &mut [u8],
) -> Result<usize, Refused>
    ensures { StatedFor tariff opening text.now page.old (cleared result page.new) (number_of result) (value_of result) }
{
    match tariff {
        1 => statement_under(h1(Kva(10))?, opening, text, page),
        2 => statement_under(h2(), opening, text, page),
        3 => statement_under(h2_time_of_day(), opening, text, page),
        4 => statement_under(changeover()?, opening, text, page),
        _ => Err(Refused::Figures),
    }
}

/// The statement of a text of 1 to 65,536 bytes under the tariff of this number, 1 to 4, for an account that opens on this
/// day, 0 to 18,262: the bytes of its result. A refused one leaves zeros. The numbers are 64 bits wide, as office programs
/// hold them, so that none is cut to one in limits.
pub fn statement(tariff: u64, opening: u64, text: &[u8], page: &mut [u8]) -> Result<usize, Refused>
    ensures after { StatedFor tariff opening text.now page.old page.new (number_of result) (value_of result) }
    ensures law { number_of result ≡ 0 → LawfulPage (numbered tariff) (opened_on opening) text.now page.new }
    ensures within { IfOk result (λ bytes. bytes ≤ length page.new) }
{
    let result = statement_numbered(tariff, opening, text, page);
    if result.is_err() {
        page.fill(0);
    }
    result
}
