// A whole run over memory that the caller has back when it ends.
ghost use Rattle.std.specs.Prelude.{◌≡◌, OnErr};
ghost use Rattle.rules.specs.Questions.{first_no, opening_asked};
ghost use Rattle.account.specs.Answers.{Asked};
ghost use Rattle.run.specs.Calls.{asks_in, calls_in, answers_in};
ghost use Rattle.run.specs.Runs.{Left};

use crate::chosen::Chosen;
use crate::request::Request;
use crate::run::serve_all;
use account::account::{Account, Hold};
use account::memory::Memory;
use account::refusal::Refusal;
use account::sums::coming::Coming;
use figures::line::Line;
use figures::money::Money;
use figures::row::Row;
use tariff::tariff::Tariff;

/// What a run leaves beside the rows and the lines: who holds the account, the sums, and how many places of each
/// memory are filled.
#[derive(Clone, Copy)]
pub struct Kept {
    /// How many holds were granted.
    pub granted: u32,
    /// The latest of them, where it is not handed back.
    pub hold: Option<Hold>,
    pub balance: Money,
    pub due: Money,
    pub coming: Coming,
    pub rows: usize,
    pub lines: usize,
}

/// Opens an account over a sheet and a journal, makes every call in turn, writes its answer beside it, and closes the
/// account. An opening that is refused changes nothing.
pub fn keep<T: Tariff + Drop, M: Chosen>(
    tariff: T,
    day: u64,
    sheet: &mut [Row],
    journal: &mut [Line],
    requests: &mut [Request<M>],
) -> Result<Kept, Refusal>
    ensures left { Asked (first_no (opening_asked day)) (Left (T.Tariff.meaning tariff) day
        sheet.old sheet.new journal.old journal.new
        (calls_in M.Chosen.means requests.old) (answers_in requests.new)) result }
    ensures asks { asks_in requests.new ≡ asks_in requests.old }
    ensures unchanged { OnErr result
        ((sheet.new ≡ sheet.old) × (journal.new ≡ journal.old) × (requests.new ≡ requests.old)) }
{
    let mut memory = Memory { sheet, journal };
    let mut account = Account::open(tariff, day, &mut memory)?;
    serve_all(&mut account, requests);
    let kept = Kept {
        granted: account.granted(),
        hold: account.hold(),
        balance: account.balance(),
        due: account.due(),
        coming: account.coming(),
        rows: account.rows().len(),
        lines: account.lines().len(),
    };
    account.close(&mut memory);
    Ok(kept)
}

#[cfg(test)]
mod tests;
