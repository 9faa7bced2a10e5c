// Events read from lines. All is inlined where a line is served, so that an event, which may be large, is not stored on the way;
// only the parts of a bill, an estimate and a correction are read by calls, since the whole would grow too large to be inlined.
ghost use Rattle.std.specs.Prelude.{◌≡◌, ◌≤◌, length, IfOk};
ghost use Rattle.events.specs.declared.event.Event.TheVariants.{Take, HandBack, Bill, Estimate, Correct, Pay};
ghost use Rattle.events.specs.Lines.{fields as fields_in, placed};
ghost use Rattle.events.specs.Events.{t_line, h_line, b_line, e_line, c_line, p_line, event, event_in, event_from, event_of};
ghost use Rattle.events.specs.RoundTrip.{IsLineOf};
ghost use Rattle.events.specs.Unread.{unread, made, Handed};

use crate::correction::correct_parts;
use crate::event::Event;
use crate::fault::ReaderFault;
use crate::line_fields::LineFields;
use figures::reported::{Cents, Kva, Kwh, Reading};

/// When, and for how long.
#[inline(always)]
fn take_parts(fields: &mut LineFields<'_>) -> Result<(u64, u64), ReaderFault>
    ensures value { event t_line (unread fields.old) ≡ made (λ p. Take p.0 p.1) result }
    ensures left { Handed 2 result fields.old fields.new }
{
    let moment = fields.parse()?;
    let span = fields.parse()?;
    Ok((moment, span))
}

#[inline(always)]
fn read_take(rest: &[u8]) -> Result<Event, ReaderFault>
    requires { length rest.now ≤ 140 }
    ensures value { result ≡ event_in t_line (placed 3 (fields_in rest.now)) }
{
    let mut fields = LineFields::new(rest);
    let read = take_parts(&mut fields);
    let (moment, span) = fields.counted(rest, 2, read)?;
    Ok(Event::Take { moment, span })
}

/// The hold.
#[inline(always)]
fn hand_back_parts(fields: &mut LineFields<'_>) -> Result<u64, ReaderFault>
    ensures value { event h_line (unread fields.old) ≡ made (λ p. HandBack p) result }
    ensures left { Handed 1 result fields.old fields.new }
{
    fields.parse()
}

#[inline(always)]
fn read_hand_back(rest: &[u8]) -> Result<Event, ReaderFault>
    requires { length rest.now ≤ 140 }
    ensures value { result ≡ event_in h_line (placed 3 (fields_in rest.now)) }
{
    let mut fields = LineFields::new(rest);
    let read = hand_back_parts(&mut fields);
    let hold = fields.counted(rest, 1, read)?;
    Ok(Event::HandBack { hold })
}

/// The hold, the last day and the reading.
#[inline(never)]
fn bill_parts(fields: &mut LineFields<'_>) -> Result<(u64, u64, Reading), ReaderFault>
    ensures value { event b_line (unread fields.old) ≡ made (λ p. Bill p.0 p.1 p.2) result }
    ensures left { Handed 5 result fields.old fields.new }
{
    let hold = fields.parse()?;
    let last = fields.parse()?;
    let day = fields.parse()?;
    let peak = fields.parse()?;
    let demand = fields.parse()?;
    let reading = Reading { day, peak, demand };
    Ok((hold, last, reading))
}

#[inline(always)]
fn read_bill(rest: &[u8]) -> Result<Event, ReaderFault>
    requires { length rest.now ≤ 140 }
    ensures value { result ≡ event_in b_line (placed 3 (fields_in rest.now)) }
{
    let mut fields = LineFields::new(rest);
    let read = bill_parts(&mut fields);
    let (hold, last, reading) = fields.counted(rest, 5, read)?;
    Ok(Event::Bill {
        hold,
        last,
        reading,
    })
}

/// The hold, the last day and the category.
#[inline(never)]
fn estimate_parts(fields: &mut LineFields<'_>) -> Result<(u64, u64, Kwh, u64, Kva), ReaderFault>
    ensures value { event e_line (unread fields.old) ≡ made (λ p. Estimate p.0 p.1 p.2 p.3 p.4) result }
    ensures left { Handed 5 result fields.old fields.new }
{
    let hold = fields.parse()?;
    let last = fields.parse()?;
    let figure = fields.parse()?;
    let peak = fields.parse()?;
    let demand = fields.parse()?;
    Ok((hold, last, figure, peak, demand))
}

#[inline(always)]
fn read_estimate(rest: &[u8]) -> Result<Event, ReaderFault>
    requires { length rest.now ≤ 140 }
    ensures value { result ≡ event_in e_line (placed 3 (fields_in rest.now)) }
{
    let mut fields = LineFields::new(rest);
    let read = estimate_parts(&mut fields);
    let (hold, last, figure, peak, demand) = fields.counted(rest, 5, read)?;
    Ok(Event::Estimate {
        hold,
        last,
        figure,
        peak,
        demand,
    })
}

#[inline(always)]
fn read_correct(rest: &[u8]) -> Result<Event, ReaderFault>
    requires { length rest.now ≤ 140 }
    ensures value { result ≡ event_in c_line (placed 3 (fields_in rest.now)) }
{
    let mut fields = LineFields::new(rest);
    let read = correct_parts(&mut fields);
    let (hold, finding, basis) = fields.counted(rest, 13, read)?;
    Ok(Event::Correct {
        hold,
        finding,
        basis,
    })
}

/// The hold and the cents.
#[inline(always)]
fn pay_parts(fields: &mut LineFields<'_>) -> Result<(u64, Cents), ReaderFault>
    ensures value { event p_line (unread fields.old) ≡ made (λ p. Pay p.0 p.1) result }
    ensures left { Handed 2 result fields.old fields.new }
{
    let hold = fields.parse()?;
    let cents = fields.parse()?;
    Ok((hold, cents))
}

#[inline(always)]
fn read_pay(rest: &[u8]) -> Result<Event, ReaderFault>
    requires { length rest.now ≤ 140 }
    ensures value { result ≡ event_in p_line (placed 3 (fields_in rest.now)) }
{
    let mut fields = LineFields::new(rest);
    let read = pay_parts(&mut fields);
    let (hold, cents) = fields.counted(rest, 2, read)?;
    Ok(Event::Pay { hold, cents })
}

/// The event of a line that is short enough: its first two bytes choose the form, and the rest is its fields.
#[inline(always)]
fn read_form(line: &[u8]) -> Result<Event, ReaderFault>
    requires { length line.now ≤ 140 }
    ensures { result ≡ event_from (fields_in line.now) }
{
    match line {
        [b'T', b',', rest @ ..] => read_take(rest),
        [b'H', b',', rest @ ..] => read_hand_back(rest),
        [b'B', b',', rest @ ..] => read_bill(rest),
        [b'E', b',', rest @ ..] => read_estimate(rest),
        [b'C', b',', rest @ ..] => read_correct(rest),
        [b'P', b',', rest @ ..] => read_pay(rest),
        _ => Err(ReaderFault::Shape),
    }
}

/// The event that a line carries; the line is then the one that is written for it.
#[inline(always)]
#[tactic(auto, using(crate::proofs::RoundTrip::read_short, crate::proofs::RoundTrip::written_short))]
pub fn read_event(line: &[u8]) -> Result<Event, ReaderFault>
    ensures value { result ≡ event_of line.now }
    ensures written { IfOk result (λ event. IsLineOf line.now event) }
{
    if line.len() > 140 {
        return Err(ReaderFault::TooLong);
    }
    read_form(line)
}
