// The lines of a statement's page, for a caller that asks once, at the end, whether all of them fitted.
ghost use Rattle.figures.specs.View.{line_seen};
ghost use Rattle.desk.specs.Called.{outcome_of};
ghost use Rattle.page.specs.Drafts.{Drafted};
ghost use Rattle.statements.specs.Texts.{layer_letter, answer_line, row_text, told, journal_line, sums_line};

use crate::entries::{layer_letter, letter};
use desk::fault::{Fault, Layer};
use figures::line::Line;
use figures::money::Money;
use page::Draft;

fn answer_line(draft: &mut Draft, layer: Layer, number: u32, value: i64)
    ensures { Drafted draft.old draft.new (answer_line (layer_letter layer) number value) }
{
    draft.text(&[b'A', b',', layer_letter(layer), b',']);
    draft.figure(u64::from(number));
    draft.push(b',');
    draft.cents(Money(value));
    draft.push(b'\n');
}

/// What a line of the text was answered: `A,layer,number,value`, with number 0 for an accepted line.
pub fn answer(draft: &mut Draft, outcome: Result<i64, Fault>)
    ensures { Drafted draft.old draft.new (told (outcome_of outcome)) }
{
    match outcome {
        Ok(value) => answer_line(draft, Layer::Account, 0, value),
        Err(fault) => answer_line(
            draft,
            fault.layer(),
            fault.number(),
            i64::from(fault.value()),
        ),
    }
}

/// A row's number, or `-` where the line names none.
fn row(draft: &mut Draft, row: Option<u8>)
    ensures { Drafted draft.old draft.new (row_text row) }
{
    match row {
        Some(number) => draft.figure(u64::from(number)),
        None => draft.push(b'-'),
    }
}

/// A line of the journal: `J,hold,letter,row,cents`.
pub fn journal(draft: &mut Draft, line: Line)
    ensures { Drafted draft.old draft.new (journal_line (line_seen line)) }
{
    draft.text(b"J,");
    draft.figure(line.hold as u64);
    draft.text(&[b',', letter(line.letter), b',']);
    row(draft, line.row);
    draft.push(b',');
    draft.cents(line.cents);
    draft.push(b'\n');
}

/// The balance and the amount due: `S,balance,due`.
pub fn sums(draft: &mut Draft, balance: Money, due: Money)
    ensures { Drafted draft.old draft.new (sums_line balance.0 due.0) }
{
    draft.text(b"S,");
    draft.cents(balance);
    draft.push(b',');
    draft.cents(due);
    draft.push(b'\n');
}
