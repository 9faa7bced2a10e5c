// A text's lines, borrowed from what was handed in.
ghost use Rattle.std.specs.Prelude.{◌≡◌, ◌==◌};
ghost use Rattle.std.specs.List.{before_first};
ghost use Rattle.std.specs.Iterator.{YieldsFirstRef, item_count};
ghost use Rattle.events.specs.Lines.{lines};
ghost use Rattle.events.specs.Parted.{Behind};
ghost use Rattle.events.specs.LinesLeft.{lines_left};

use memchr::memchr;

/// What stands before the first `mark`, and what after it, where there is one.
fn split_at_first(text: &[u8], mark: u8) -> (&[u8], Option<&[u8]>)
    ensures before { result.0.now ≡ before_first (λ b. b == mark) text.now }
    ensures after { Behind mark text.now result.1 }
{
    // an empty line is not worth a call
    if text.first() == Some(&mark) {
        return (&[], Some(&text[1..]));
    }
    match memchr(mark, text) {
        Some(end) => (&text[..end], Some(&text[end + 1..])),
        None => (text, None),
    }
}

/// Hands out the lines of a text; the fields of a line are handed out by [`Fields`](crate::fields::Fields).
#[derive(Drop)]
pub struct Reader<'a> {
    rest: &'a [u8],
}

impl<'a> Reader<'a> {
    pub fn new(text: &'a [u8]) -> Reader<'a>
        ensures made { lines_left result ≡ lines text.now }
    {
        Reader { rest: text }
    }
}

impl<'a> Iterator for Reader<'a> {
    type Item = &'a [u8];

    ghost next_gives = { YieldsFirstRef lines_left };

    ghost remaining = { item_count lines_left };

    #[tactic(auto, using(crate::proofs::Steps::lines_next))]
    fn next(&mut self) -> Option<&'a [u8]> {
        if self.rest.is_empty() {
            return None;
        }
        let (line, rest) = split_at_first(self.rest, b'\n');
        self.rest = rest.unwrap_or(&[]);
        Some(line)
    }
}
