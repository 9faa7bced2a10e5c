// A call, as it is asked for.
use figures::reported::{Cents, Reading};
use method::finding::Finding;

/// An estimate and a correction each bring a method that is made already; the event of a line (`events::event::Event`)
/// has only the figures that one is made of.
#[derive(Clone, Copy)]
pub enum Ask<M> {
    Take {
        moment: u64,
        span: u64,
    },
    HandBack {
        hold: u64,
    },
    Bill {
        hold: u64,
        last: u64,
        reading: Reading,
    },
    Estimate {
        hold: u64,
        last: u64,
        method: M,
    },
    Correct {
        hold: u64,
        finding: Finding,
        method: M,
    },
    Pay {
        hold: u64,
        cents: Cents,
    },
}
