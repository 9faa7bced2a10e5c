// The result written on the page: an answer for every line of the text, and then what the account shows.
ghost use Rattle.std.specs.Prelude.{◌≡◌, [], length, OnOk};
ghost use Rattle.account.specs.State.{state_of, opening_of, Keeps};
ghost use Rattle.events.specs.Lines.{lines};
ghost use Rattle.page.specs.Writes.{Wrote, fitted, padded};
ghost use Rattle.statements.specs.Statement.{account_text, result_text};

use crate::entries::{answer, journal, sums};
use account::account::Account;
use desk::serving::serve;
use events::lines::Reader;
use page::{Full, Page};
use tariff::tariff::Tariff;

/// Writes every line of the journal, and the sums.
fn show<T>(account: &Account<T>, page: &mut Page) -> Result<(), Full>
    ensures { Wrote page.old page.new result (account_text (state_of account.now).lines (state_of account.now).balance (state_of account.now).due) }
{
    for line in account.lines() {
        journal(page, *line)?;
    }
    sums(page, account.balance(), account.due())
}

/// Writes the result of a text for an account just opened; how many bytes it has, where it fits. A function for
/// each tariff: all of them inlined into their one caller ran slower.
#[inline(never)]
pub(crate) fn write<T: Tariff>(
    account: &mut Account<T>,
    text: &[u8],
    page: &mut [u8],
) -> Result<usize, Full>
    requires { Keeps T.Tariff.meaning [] account.old }
    ensures value { result ≡ fitted (length page.old) (result_text (T.Tariff.meaning account.old.tariff) (opening_of account.old) (lines text.now)) }
    ensures after { OnOk result (page.new ≡ padded (length page.old) (result_text (T.Tariff.meaning account.old.tariff) (opening_of account.old) (lines text.now))) }
{
    let mut page = Page::new(page);
    for line in Reader::new(text) {
        let outcome = serve(account, line);
        answer(&mut page, outcome)?;
    }
    show(account, &mut page)?;
    Ok(page.finish())
}
