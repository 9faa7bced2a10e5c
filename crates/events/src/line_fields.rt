// The fields of a line, read by the types that are wanted of them.
ghost use Rattle.std.specs.Prelude.{◌≡◌, ◌+◌, ◌≤◌, ◌<◌, length, All, if◌then◌else◌, Ok, Err, nat_eq, IfOk};
ghost use Rattle.events.specs.FieldsLeft.{fields_left};

use crate::fault::ReaderFault;
use crate::field::FromField;
use crate::fields::Fields;
use crate::letters::Unused;

/// The fields that stand after the letter of a line that is short enough to be read.
#[derive(Drop)]
pub(crate) struct LineFields<'a> {
    pub(crate) fields: Fields<'a>,
    /// So each column fits a byte.
    ghost narrow: { All (λ f. f.0 < 256) (fields_left fields) },
}

impl<'a> LineFields<'a> {
    ghost use Rattle.events.specs.declared.fault.ReaderFault.TheVariants.{Shape};
    ghost use Rattle.events.specs.Lines.{fields as fields_in, placed};
    ghost use Rattle.events.specs.Reads.{field, unused};
    ghost use Rattle.events.specs.Unread.{unread, with_unread, Handed};

    /// The fields of what stands after a line's letter and its comma.
    #[inline(always)]
    pub(crate) fn new(rest: &'a [u8]) -> LineFields<'a>
        requires { length rest.now ≤ 140 }
        ensures made { unread result ≡ placed 3 (fields_in rest.now) }
    {
        LineFields {
            fields: Fields::new(rest),
        }
    }

    /// Refuses a line that has not as many fields as its form asks.
    #[inline(never)]
    pub(crate) fn require_count(&self, asked: usize) -> Result<(), ReaderFault>
        ensures value { result ≡ (if nat_eq (length (unread self.now)) asked then Ok tt else Err Shape) }
    {
        if self.fields.count_left() != asked {
            return Err(ReaderFault::Shape);
        }
        Ok(())
    }

    /// What was read of the fields of `rest`, if those are as many as the form asks. That question comes first, but they need
    /// counting only where a field was not read or some are left.
    #[inline(always)]
    pub(crate) fn counted<T: Copy>(
        self,
        rest: &[u8],
        asked: usize,
        read: Result<T, ReaderFault>,
    ) -> Result<T, ReaderFault>
        requires short { length rest.now ≤ 140 }
        requires handed { IfOk read (λ x. length (placed 3 (fields_in rest.now)) ≡ length (unread self) + asked) }
        ensures value { result ≡ (if nat_eq (length (placed 3 (fields_in rest.now))) asked then read else Err Shape) }
    {
        if read.is_err() || self.fields.rest.is_some() {
            LineFields::new(rest).require_count(asked)?;
        }
        read
    }

    /// What the next field holds, if one is left.
    #[inline(always)]
    pub(crate) fn parse<T: FromField>(&mut self) -> Result<T, ReaderFault>
        ensures value { field T.FromField.held (unread self.old) ≡ with_unread result self.new }
        ensures left { Handed 1 result self.old self.new }
    {
        let field = self.fields.next().ok_or(ReaderFault::Shape)?;
        T::from_field(field.bytes).ok_or(ReaderFault::Field(field.column as u8))
    }

    /// Refuses the first of so many fields that does not hold 0.
    pub(crate) fn unused(&mut self, many: usize) -> Result<(), ReaderFault>
        ensures value { length (unread self.old) ≡ many → result ≡ unused (unread self.old) }
        ensures left { Handed many result self.old self.new }
    {
        for _ in 0..many {
            let Unused = self.parse()?;
        }
        Ok(())
    }
}
