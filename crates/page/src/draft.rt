// A page whose writes answer nothing: whether all of them fitted is told when it is ended.
ghost use Rattle.std.specs.Prelude.{◌≡◌, [], ◌∷◌, length, Some, decimal};
ghost use Rattle.std.specs.Fmt.{signed_decimal};
ghost use Rattle.page.specs.Drafts.{drafted, Drafted, size, filled};

use crate::kept::Draft;
use figures::money::Money;
use itoa::write_digits;

impl<'a> Draft<'a> {
    pub fn new(bytes: &'a mut [u8]) -> Draft<'a>
        ensures lent { result.bytes.ghost_name ≡ bytes.entry.ghost_name }
        ensures made { (drafted result ≡ Some []) × (length result.bytes.now ≡ length bytes.old) }
    {
        Draft {
            bytes,
            at: 0,
            full: false,
        }
    }

    pub fn push(&mut self, byte: u8)
        ensures after { Drafted self.old self.new (byte ∷ []) }
    {
        self.text(&[byte]);
    }

    pub fn text(&mut self, text: &[u8])
        ensures after { Drafted self.old self.new text.now }
    {
        if text.len() > self.bytes.len() - self.at {
            self.full = true;
            return;
        }
        let end = self.at + text.len();
        self.bytes[self.at..end].copy_from_slice(text);
        self.at = end;
    }

    /// A figure in decimal digits.
    #[tactic(auto, using(crate::proofs::Long::at_most_20))]
    pub fn figure(&mut self, n: u64)
        ensures after { Drafted self.old self.new (decimal n) }
    {
        let mut digits = [0; 20];
        let start = write_digits(n, &mut digits, 20);
        self.text(&digits[start..]);
    }

    /// A signed amount, with a minus where it is below zero.
    pub fn cents(&mut self, amount: Money)
        ensures after { Drafted self.old self.new (signed_decimal amount.0) }
    {
        if amount.0 < 0 {
            self.push(b'-');
        }
        self.figure(amount.0.unsigned_abs());
    }

    /// Ends the draft: zeros after what was written, or everywhere where it did not fit. The answer is how many bytes were
    /// written, or none where they did not fit.
    pub fn finish(self) -> Option<usize>
        ensures value { result ≡ size (drafted self.entry) }
        ensures after { self.exit.0.now ≡ filled (length self.entry.bytes.now) (drafted self.entry) }
    {
        let Draft { bytes, at, full } = self;
        let kept = if full { 0 } else { at };
        bytes[kept..].fill(0);
        if full { None } else { Some(at) }
    }
}
