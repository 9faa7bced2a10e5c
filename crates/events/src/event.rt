// What a line of the text asks of the account.
use figures::reported::{Cents, Kva, Kwh, Reading};
use method::finding::Finding;

/// Figures stand as they were written, in limits or not: the account and the makings of methods ask that.
#[derive(Clone, Copy)]
pub enum Event {
    Take {
        moment: u64,
        span: u64,
    },
    HandBack {
        hold: u64,
    },
    Bill {
        hold: u64,
        last: u64,
        reading: Reading,
    },
    /// By the category of these units in 30 days, this per cent of them in the peak, and this demand.
    Estimate {
        hold: u64,
        last: u64,
        figure: Kwh,
        peak: u64,
        demand: Kva,
    },
    Correct {
        hold: u64,
        finding: Finding,
        basis: Basis,
    },
    Pay {
        hold: u64,
        cents: Cents,
    },
}

/// The method by which a correction's units are worked out, with the figures that its line gives.
#[derive(Clone, Copy)]
pub enum Basis {
    /// What the meter showed, and the test meter beside it.
    TestMeter {
        shown: Kwh,
        tested: Kwh,
    },
    /// Three rows from this one on, to be those just before the span.
    PreviousThree {
        from: u64,
    },
    /// Three rows from this one on, to be those just after the span.
    LaterThree {
        from: u64,
    },
    /// The contract demand, and three factors and the peak's share in per cent.
    ContractDemand {
        kva: Kva,
        utilization: u64,
        power: u64,
        load: u64,
        peak: u64,
    },
}
