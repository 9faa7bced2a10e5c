// The fields that are written for an event, after the letter of its line.
ghost use Rattle.std.specs.Prelude.{◌≡◌, ◌∷◌, [], map, decimal, replicate, codes};
ghost use Rattle.events.specs.declared.event.Event.TheVariants.{Bill, Estimate};
ghost use Rattle.events.specs.Carried.{finding_fields, basis_fields, fields_of};
ghost use Rattle.events.specs.Writing.{text_of};

use crate::cell::{Cell, UNUSED};
use crate::event::Basis;
use crate::letters::{cause_letter, known_letter, side_letter};
use figures::reported::{Kva, Kwh, Reading};
use method::finding::Finding;

pub(crate) fn bill_fields(hold: u64, last: u64, reading: Reading) -> [Cell; 5]
    ensures { (66 ∷ []) ∷ map text_of result ≡ fields_of (Bill hold last reading) }
{
    [
        Cell::figure(hold),
        Cell::figure(last),
        Cell::figure(reading.day),
        Cell::figure(reading.peak),
        Cell::figure(reading.demand),
    ]
}

pub(crate) fn estimate_fields(
    hold: u64,
    last: u64,
    figure: Kwh,
    peak: u64,
    demand: Kva,
) -> [Cell; 5]
    ensures { (69 ∷ []) ∷ map text_of result ≡ fields_of (Estimate hold last figure peak demand) }
{
    [
        Cell::figure(hold),
        Cell::figure(last),
        Cell::figure(figure),
        Cell::figure(peak),
        Cell::figure(demand),
    ]
}

/// What a correction rests on.
pub(crate) fn finding_fields(finding: Finding) -> [Cell; 6]
    ensures { map text_of result ≡ finding_fields finding }
{
    [
        Cell::Letter(cause_letter(finding.cause)),
        Cell::Letter(side_letter(finding.side)),
        Cell::figure(finding.notice),
        Cell::Letter(known_letter(finding.ascertained)),
        Cell::figure(finding.span.first),
        Cell::figure(finding.span.last),
    ]
}

/// The letter and the five fields of a method by three rows.
fn three_rows(letter: u8, from: u64) -> [Cell; 6]
    ensures { map text_of result ≡ (letter ∷ []) ∷ decimal from ∷ replicate 4 (codes "0") }
{
    [
        Cell::Letter(letter),
        Cell::figure(from),
        UNUSED,
        UNUSED,
        UNUSED,
        UNUSED,
    ]
}

/// A method's letter, and its five fields.
pub(crate) fn basis_fields(basis: Basis) -> [Cell; 6]
    ensures { map text_of result ≡ basis_fields basis }
{
    match basis {
        Basis::TestMeter { shown, tested } => {
            let (shown, tested) = (Cell::figure(shown), Cell::figure(tested));
            [Cell::Letter(b'M'), shown, tested, UNUSED, UNUSED, UNUSED]
        }
        Basis::PreviousThree { from } => three_rows(b'P', from),
        Basis::LaterThree { from } => three_rows(b'L', from),
        Basis::ContractDemand {
            kva,
            utilization,
            power,
            load,
            peak,
        } => [
            Cell::Letter(b'D'),
            Cell::figure(kva),
            Cell::figure(utilization),
            Cell::figure(power),
            Cell::figure(load),
            Cell::figure(peak),
        ],
    }
}
