// Figures as they are reported, each in its unit, in limits or not.
ghost use Rattle.std.specs.Prelude.{◌≡◌, ℕ};
ghost use Rattle.figures.specs.Faults.{number_of};

/// A number of units, of any size.
pub trait Figure: Copy {
    ghost size: { Self → ℕ };

    fn size(self) -> u64
        ensures { result ≡ size self };
}

/// A figure whose unit is plain.
impl Figure for u64 {
    ghost size = { λ n. n };

    fn size(self) -> u64 {
        self
    }
}

impl Figure for Kwh {
    ghost size = { λ f. f.0 };

    fn size(self) -> u64 {
        self.0
    }
}

impl Figure for Kva {
    ghost size = { λ f. f.0 };

    fn size(self) -> u64 {
        self.0
    }
}

impl Figure for Cents {
    ghost size = { λ f. f.0 };

    fn size(self) -> u64 {
        self.0
    }
}

/// Units of energy in kWh, of any size. Each unit is a struct of its own, so that no figure is taken for one of another.
#[derive(Clone, Copy)]
pub struct Kwh(pub u64);

/// A demand in kVA, of any size.
#[derive(Clone, Copy)]
pub struct Kva(pub u64);

/// An amount in cents, not below zero, of any size.
#[derive(Clone, Copy)]
pub struct Cents(pub u64);

/// What a meter shows: day units, peak units and the maximum demand.
#[derive(Clone, Copy)]
pub struct Reading {
    pub day: Kwh,
    pub peak: Kwh,
    pub demand: Kva,
}

/// A figure is out of its limits.
#[derive(Clone, Copy)]
pub struct OutOfLimits;

impl OutOfLimits {
    /// The number of the question that was answered no.
    pub fn number(self) -> u32
        ensures { result ≡ number_of self }
    {
        2
    }
}
