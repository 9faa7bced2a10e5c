// Events written as lines.
ghost use Rattle.std.specs.Prelude.{◌≡◌, ◌≤◌, ◌∷◌, [], map, length, take, OnOk, IfOk, IfErr};
ghost use Rattle.std.specs.List.{list_all};
ghost use Rattle.page.specs.Writes.{Wrote, fitted, padded};
ghost use Rattle.page.specs.Answered.{cleared};
ghost use Rattle.events.specs.Carried.{is_short, fields_of};
ghost use Rattle.events.specs.declared.unwritten.Unwritten.TheVariants.{NoLine};
ghost use Rattle.events.specs.declared.event.Event.TheVariants.{Correct};
ghost use Rattle.events.specs.RoundTrip.{ReadsAs, NeverRead};
ghost use Rattle.events.specs.Writing.{text_of, line_end, Written, EventWritten};

use crate::cell::Cell;
use crate::cells::{basis_fields, bill_fields, estimate_fields, finding_fields};
use crate::event::{Basis, Event};
use crate::unwritten::Unwritten;
use method::finding::Finding;
use page::{Full, Page};

/// A line of this letter and these fields, with its end.
fn put_line(letter: u8, fields: &[Cell], page: &mut Page) -> Result<(), Full>
    ensures { Wrote page.old page.new result (line_end ((letter ∷ []) ∷ map text_of fields.now)) }
{
    page.push(letter)?;
    for field in fields {
        field.write(page)?;
    }
    page.push(b'\n')
}

/// Writes such a line and zeros after it: how many bytes the line has, where it fits the page.
fn fill_page(letter: u8, fields: &[Cell], page: &mut [u8]) -> Result<usize, Full>
    ensures value { result ≡ fitted (length page.old) (line_end ((letter ∷ []) ∷ map text_of fields.now)) }
    ensures after { OnOk result (page.new ≡ padded (length page.old) (line_end ((letter ∷ []) ∷ map text_of fields.now))) }
{
    let mut page = Page::new(page);
    put_line(letter, fields, &mut page)?;
    Ok(page.finish())
}

/// Whether every field is short enough.
fn are_short(fields: &[Cell]) -> bool
    ensures { result ≡ list_all is_short (map text_of fields.now) }
{
    fields.iter().all(Cell::is_short)
}

/// Writes such a line, where it can be written: how many bytes it has. A refused one leaves anything on the page.
fn write_fields(letter: u8, fields: &[Cell], page: &mut [u8]) -> Result<usize, Unwritten>
    ensures { Written ((letter ∷ []) ∷ map text_of fields.now) page.old (cleared result page.new) result }
{
    if !are_short(fields) {
        return Err(Unwritten::NoLine);
    }
    Ok(fill_page(letter, fields, page)?)
}

/// A correction's fields are those of its finding and of its method.
fn write_correction(
    hold: u64,
    finding: Finding,
    basis: Basis,
    page: &mut [u8],
) -> Result<usize, Unwritten>
    ensures { Written (fields_of (Correct hold finding basis)) page.old (cleared result page.new) result }
{
    let [cause, side, notice, known, first, last] = finding_fields(finding);
    let [method, a, b, c, d, e] = basis_fields(basis);
    let hold = Cell::figure(hold);
    let fields = [
        hold, cause, side, notice, known, first, last, method, a, b, c, d, e,
    ];
    write_fields(b'C', &fields, page)
}

/// Writes an event's line: how many bytes it has. A refused one leaves anything on the page.
fn write_line(event: Event, page: &mut [u8]) -> Result<usize, Unwritten>
    ensures { Written (fields_of event) page.old (cleared result page.new) result }
{
    match event {
        Event::Take { moment, span } => {
            write_fields(b'T', &[Cell::figure(moment), Cell::figure(span)], page)
        }
        Event::HandBack { hold } => write_fields(b'H', &[Cell::figure(hold)], page),
        Event::Bill {
            hold,
            last,
            reading,
        } => write_fields(b'B', &bill_fields(hold, last, reading), page),
        Event::Estimate {
            hold,
            last,
            figure,
            peak,
            demand,
        } => write_fields(
            b'E',
            &estimate_fields(hold, last, figure, peak, demand),
            page,
        ),
        Event::Correct {
            hold,
            finding,
            basis,
        } => write_correction(hold, finding, basis, page),
        Event::Pay { hold, cents } => {
            write_fields(b'P', &[Cell::figure(hold), Cell::figure(cents)], page)
        }
    }
}

/// Writes an event as a line with its line end: how many bytes it has. A refused event leaves zeros.
pub fn write_event(event: Event, page: &mut [u8]) -> Result<usize, Unwritten>
    ensures after { EventWritten event page.old page.new result }
    ensures within { IfOk result (λ bytes. bytes ≤ length page.new) }
    ensures read { IfOk result (λ bytes. ReadsAs (take bytes page.new) event) }
    ensures unread { IfErr result (λ why. (why ≡ NoLine) → NeverRead event) }
{
    let result = write_line(event, page);
    if result.is_err() {
        page.fill(0);
    }
    result
}
