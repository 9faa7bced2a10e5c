// The fields of a line, borrowed from it, each with its column.
ghost use Rattle.std.specs.Prelude.{◌≡◌, ◌+◌, ◌^◌, ◌<◌, ◌==◌, length};
ghost use Rattle.std.specs.Option.{ForSome};
ghost use Rattle.std.specs.List.{before_first, count_by};
ghost use Rattle.events.specs.Parted.{Behind};

/// A field of a line, and the column at which it begins, counted in bytes from 1.
#[derive(Clone, Copy)]
pub struct Field<'a> {
    pub bytes: &'a [u8],
    pub column: usize,
}

/// Hands out the fields that stand after a line's letter and its comma.
#[derive(Drop)]
pub struct Fields<'a> {
    /// From the next field to the line's end; none after the last field.
    pub(crate) rest: Option<&'a [u8]>,
    /// The column at which the next field begins.
    column: usize,
    ghost fits: { ForSome rest (λ r. column + length r.now + 1 < 2 ^ 64) },
}

/// What stands before the first comma, and what after it, where there is one. Fields are short, so that looking for many
/// bytes at a time does not pay.
#[inline(always)]
fn split_at_comma(text: &[u8]) -> (&[u8], Option<&[u8]>)
    ensures before { result.0.now ≡ before_first (λ b. b == 44) text.now }
    ensures after { Behind 44 text.now result.1 }
{
    match text.iter().position(|byte| *byte == b',') {
        Some(end) => (&text[..end], Some(&text[end + 1..])),
        None => (text, None),
    }
}

/// How many commas `rest` has. A plain loop, which the compiler takes many bytes at a time.
fn commas(rest: &[u8]) -> usize
    ensures { result ≡ count_by (λ b. b == 44) rest.now }
{
    let mut count = 0;
    for byte in rest {
        if *byte == b',' {
            count += 1;
        }
    }
    count
}

impl<'a> Fields<'a> {
    ghost use Rattle.events.specs.Lines.{fields, placed};
    ghost use Rattle.events.specs.FieldsLeft.{fields_left};

    /// The fields of what stands after a line's letter and its comma, which take two columns.
    #[inline(always)]
    pub fn new(rest: &'a [u8]) -> Fields<'a>
        ensures made { fields_left result ≡ placed 3 (fields rest.now) }
    {
        Fields {
            rest: Some(rest),
            column: 3,
        }
    }

    /// How many fields are left: one more than commas, or none after the last field.
    #[tactic(auto, using(crate::proofs::Steps::some_left))]
    pub(crate) fn count_left(&self) -> usize
        ensures { result ≡ length (fields_left self.now) }
    {
        match self.rest {
            Some(rest) => commas(rest) + 1,
            None => 0,
        }
    }
}

impl<'a> Iterator for Fields<'a> {
    ghost use Rattle.std.specs.Iterator.{YieldsFirstBy, item_count};
    ghost use Rattle.events.specs.FieldsLeft.{placed_at, fields_left};

    type Item = Field<'a>;

    ghost next_gives = { YieldsFirstBy placed_at fields_left };

    ghost remaining = { item_count fields_left };

    #[inline(always)]
    #[tactic(auto, using(crate::proofs::Steps::fields_next))]
    fn next(&mut self) -> Option<Field<'a>> {
        let (bytes, rest) = split_at_comma(self.rest?);
        let column = self.column;
        self.rest = rest;
        self.column += bytes.len() + 1;
        Some(Field { bytes, column })
    }
}
