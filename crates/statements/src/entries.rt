// The lines of a statement's page.
ghost use Rattle.std.specs.Prelude.{◌≡◌};
ghost use Rattle.figures.specs.View.{letter_of, line_seen};
ghost use Rattle.desk.specs.Called.{outcome_of};
ghost use Rattle.page.specs.Writes.{Wrote};
ghost use Rattle.statements.specs.Texts.{layer_letter, line_letter, row_text, answer_line, told, journal_line, sums_line};

use desk::fault::{Fault, Layer};
use figures::line::{Letter, Line};
use figures::money::Money;
use page::{Full, Page};

/// The letter of a layer. No `From` here or below: the letters belong to the page, and `desk` and `figures`, where it would
/// have to stand, know of no page.
pub(crate) fn layer_letter(layer: Layer) -> u8
    ensures { result ≡ layer_letter layer }
{
    match layer {
        Layer::Reader => b'r',
        Layer::Method => b'm',
        Layer::Account => b'a',
    }
}

/// The letter of a journal line.
pub(crate) fn letter(letter: Letter) -> u8
    ensures { result ≡ line_letter (letter_of letter) }
{
    match letter {
        Letter::Bill => b'B',
        Letter::Correction => b'C',
        Letter::Payment => b'P',
    }
}

#[inline(always)]
fn answer_line(page: &mut Page, layer: Layer, number: u32, value: i64) -> Result<(), Full>
    ensures { Wrote page.old page.new result (answer_line (layer_letter layer) number value) }
{
    page.text(&[b'A', b',', layer_letter(layer), b','])?;
    page.figure(u64::from(number))?;
    page.push(b',')?;
    page.cents(Money(value))?;
    page.push(b'\n')
}

/// What a line of the text was answered: `A,layer,number,value`. The page's format has numbers, with 0 for an accepted line.
#[inline(always)]
pub(crate) fn answer(page: &mut Page, outcome: Result<i64, Fault>) -> Result<(), Full>
    ensures { Wrote page.old page.new result (told (outcome_of outcome)) }
{
    match outcome {
        Ok(value) => answer_line(page, Layer::Account, 0, value),
        Err(fault) => answer_line(
            page,
            fault.layer(),
            fault.number(),
            i64::from(fault.value()),
        ),
    }
}

/// A row's number, or `-` where the line names none.
fn row(page: &mut Page, row: Option<u8>) -> Result<(), Full>
    ensures { Wrote page.old page.new result (row_text row) }
{
    match row {
        Some(number) => page.figure(u64::from(number)),
        None => page.push(b'-'),
    }
}

/// A line of the journal: `J,hold,letter,row,cents`.
pub(crate) fn journal(page: &mut Page, line: Line) -> Result<(), Full>
    ensures { Wrote page.old page.new result (journal_line (line_seen line)) }
{
    page.text(b"J,")?;
    page.figure(line.hold as u64)?;
    page.text(&[b',', letter(line.letter), b','])?;
    row(page, line.row)?;
    page.push(b',')?;
    page.cents(line.cents)?;
    page.push(b'\n')
}

/// The balance and the amount due: `S,balance,due`.
pub(crate) fn sums(page: &mut Page, balance: Money, due: Money) -> Result<(), Full>
    ensures { Wrote page.old page.new result (sums_line balance.0 due.0) }
{
    page.text(b"S,")?;
    page.cents(balance)?;
    page.push(b',')?;
    page.cents(due)?;
    page.push(b'\n')
}
