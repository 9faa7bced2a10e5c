// What a field of a line can hold.
ghost use Rattle.std.specs.Prelude.{◌≡◌, ℕ, List, Option};

/// A value that stands in one field.
pub(crate) trait FromField: Sized {
    ghost held: { List ℕ → Option Self };

    /// The value that the field's bytes write, where that is lawful.
    fn from_field(field: &[u8]) -> Option<Self>
        ensures value { result ≡ held field.now };
}
