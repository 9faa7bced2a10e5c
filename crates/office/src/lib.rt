// The office's statement, exported to C.
#![tactic(auto)]

mod answer;

ghost use Rattle.std.specs.Prelude.{◌≡◌, ◌≤◌, length};
ghost use Rattle.tariff.specs.Hotel.{numbered};
ghost use Rattle.statements.specs.Stated.{opened_on, StatedFor, LawfulPage};

pub use answer::Answer;

/// The statement of a text of 1 to 65,536 bytes under the tariff of this number, 1 to 4, by which C names it, for an account
/// that opens on this day, 0 to 18,262. A refused one leaves zeros. The clauses are the statement's, said again: no contract
/// passes through a call by itself.
#[unsafe(no_mangle)]
pub extern "C" fn maqdylez_statement(
    tariff: u64,
    opening: u64,
    text: &[u8],
    page: &mut [u8],
) -> Answer
    ensures after { StatedFor tariff opening text.now page.old page.new result.number result.value }
    ensures law { result.number ≡ 0 → LawfulPage (numbered tariff) (opened_on opening) text.now page.new }
    ensures within { result.value ≤ length page.new }
{
    statements::statement::statement(tariff, opening, text, page).into()
}
