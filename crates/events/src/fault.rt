// Why a line is no event.
ghost use Rattle.std.specs.Prelude.{◌≡◌};
ghost use Rattle.events.specs.Faults.{fault_number, fault_value};

#[derive(Clone, Copy, Debug, PartialEq, Eq)]
pub enum ReaderFault {
    /// The line is over 140 bytes.
    TooLong,
    /// No event has this letter with so many fields.
    Shape,
    /// The field that begins at this column, counted from 1, holds nothing lawful.
    Field(u8),
}

// `Field` holds its column, so no derive or cast gives these figures, and a `From` would be the same match.
impl ReaderFault {
    /// The number of the question that was answered no.
    pub fn number(self) -> u32
        ensures value { result ≡ fault_number self }
    {
        match self {
            ReaderFault::Shape => 18,
            ReaderFault::Field(_) => 19,
            ReaderFault::TooLong => 20,
        }
    }

    /// The column that the refusal points at.
    pub fn column(self) -> u8
        ensures value { result ≡ fault_value self }
    {
        match self {
            ReaderFault::Shape => 1,
            ReaderFault::Field(column) => column,
            ReaderFault::TooLong => 141,
        }
    }
}
