// The fields of a correction.
ghost use Rattle.std.specs.Prelude.{◌≡◌, length};
ghost use Rattle.events.specs.declared.event.Event.TheVariants.{Correct};
ghost use Rattle.events.specs.Events.{c_line, event};
ghost use Rattle.events.specs.Corrections.{finding_in, basis_in};
ghost use Rattle.events.specs.Unread.{unread, with_unread, with_basis, made, Handed, BasisHanded};

use crate::event::Basis;
use crate::fault::ReaderFault;
use crate::letters::MethodName;
use crate::line_fields::LineFields;
use method::finding::{Finding, Span};

fn read_finding(fields: &mut LineFields<'_>) -> Result<Finding, ReaderFault>
    ensures value { finding_in (unread fields.old) ≡ with_unread result fields.new }
    ensures left { Handed 6 result fields.old fields.new }
{
    let cause = fields.parse()?;
    let side = fields.parse()?;
    let notice = fields.parse()?;
    let ascertained = fields.parse()?;
    let first = fields.parse()?;
    let last = fields.parse()?;
    let span = Span { first, last };
    Ok(Finding {
        cause,
        side,
        notice,
        ascertained,
        span,
    })
}

/// The method with its figures, and how many of its five fields it does not use.
fn read_basis(fields: &mut LineFields<'_>) -> Result<(Basis, usize), ReaderFault>
    ensures value { basis_in (unread fields.old) ≡ with_basis result fields.new }
    ensures left { BasisHanded result fields.old fields.new }
{
    Ok(match fields.parse()? {
        MethodName::TestMeter => {
            let (shown, tested) = (fields.parse()?, fields.parse()?);
            (Basis::TestMeter { shown, tested }, 3)
        }
        MethodName::PreviousThree => {
            let from = fields.parse()?;
            (Basis::PreviousThree { from }, 4)
        }
        MethodName::LaterThree => {
            let from = fields.parse()?;
            (Basis::LaterThree { from }, 4)
        }
        MethodName::ContractDemand => {
            let basis = Basis::ContractDemand {
                kva: fields.parse()?,
                utilization: fields.parse()?,
                power: fields.parse()?,
                load: fields.parse()?,
                peak: fields.parse()?,
            };
            (basis, 0)
        }
    })
}

/// The hold, the finding and the method, where the line has thirteen fields.
#[inline(never)]
pub(crate) fn correct_parts(
    fields: &mut LineFields<'_>,
) -> Result<(u64, Finding, Basis), ReaderFault>
    ensures value { length (unread fields.old) ≡ 13 → event c_line (unread fields.old) ≡ made (λ p. Correct p.0 p.1 p.2) result }
    ensures left { Handed 13 result fields.old fields.new }
{
    let hold = fields.parse()?;
    let finding = read_finding(fields)?;
    let (basis, unused) = read_basis(fields)?;
    fields.unused(unused)?;
    Ok((hold, finding, basis))
}
