// The uses that a method serves.
ghost use Rattle.std.specs.Prelude.{◌≡◌};
ghost use Rattle.method.specs.Uses.{use_of, named_in};

use crate::finding::{Cause, Use};

/// A set of uses: each is named or not, by a flag with no value beside it.
#[derive(Clone, Copy)]
pub struct Uses {
    pub estimates: bool,
    pub absent: bool,
    pub under: bool,
    pub over: bool,
    pub stopped: bool,
    pub altered: bool,
}

impl Uses {
    pub fn has(self, u: Use) -> bool
        ensures { result ≡ named_in self (use_of u) }
    {
        match u {
            Use::Estimates => self.estimates,
            Use::Correcting(Cause::Absent) => self.absent,
            Use::Correcting(Cause::Under) => self.under,
            Use::Correcting(Cause::Over) => self.over,
            Use::Correcting(Cause::Stopped) => self.stopped,
            Use::Correcting(Cause::Altered) => self.altered,
        }
    }
}
