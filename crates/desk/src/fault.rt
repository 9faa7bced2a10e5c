// Why a line of the text did nothing, and which layer says so.
ghost use Rattle.std.specs.Prelude.{◌≡◌};
ghost use Rattle.desk.specs.declared.fault.Fault.TheVariants.{Reader, Method, Account};
ghost use Rattle.desk.specs.Faults.{layer_of, fault_number, fault_value};

use account::refusal::Refusal;
use events::fault::ReaderFault;
use method::fault::MethodFault;

/// The layer that answered a line.
#[derive(Clone, Copy)]
pub enum Layer {
    Reader,
    Method,
    Account,
}

/// A refusal, by the layer that gave it.
#[derive(Clone, Copy)]
pub enum Fault {
    Reader(ReaderFault),
    Method(MethodFault),
    Account(Refusal),
}

impl From<ReaderFault> for Fault {
    ghost from_gives = { λ e r. r ≡ Reader e };

    fn from(e: ReaderFault) -> Fault {
        Fault::Reader(e)
    }
}

impl From<MethodFault> for Fault {
    ghost from_gives = { λ e r. r ≡ Method e };

    fn from(e: MethodFault) -> Fault {
        Fault::Method(e)
    }
}

impl From<Refusal> for Fault {
    ghost from_gives = { λ e r. r ≡ Account e };

    fn from(e: Refusal) -> Fault {
        Fault::Account(e)
    }
}

impl Fault {
    pub fn layer(self) -> Layer
        ensures value { result ≡ layer_of self }
    {
        match self {
            Fault::Reader(_) => Layer::Reader,
            Fault::Method(_) => Layer::Method,
            Fault::Account(_) => Layer::Account,
        }
    }

    /// The number of the question that was answered no.
    pub fn number(self) -> u32
        ensures value { result ≡ fault_number self }
    {
        match self {
            Fault::Reader(fault) => fault.number(),
            Fault::Method(fault) => fault.number(),
            Fault::Account(refusal) => refusal.number(),
        }
    }

    /// The column that the reader points at; 0 for the other layers.
    pub fn value(self) -> u8
        ensures value { result ≡ fault_value self }
    {
        match self {
            Fault::Reader(fault) => fault.column(),
            Fault::Method(_) => 0,
            Fault::Account(_) => 0,
        }
    }
}
