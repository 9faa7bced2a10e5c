// What is written on a page.
//
// It is no `fmt::Write`: std says nothing of a writer after an `Err`, so that a page written by `write!` could not
// promise that 21 is answered only where the result does not fit. The writes are inlined: called, they make a
// statement of short lines up to two fifths slower.
ghost use Rattle.std.specs.Prelude.{◌≡◌, [], ◌∷◌, length, decimal, OnErr};
ghost use Rattle.std.specs.Fmt.{signed_decimal};
ghost use Rattle.page.specs.Writes.{held, Wrote, padded};

use crate::digits::count_digits;
use crate::kept::Page;
use figures::money::Money;
use itoa::write_digits;

/// What was to be written does not fit the page. A refused write of `Page` leaves what was written as it was; of a line that is
/// made of several writes the first of them stay.
#[derive(Clone, Copy)]
pub struct Full;

impl<'a> Page<'a> {
    pub fn new(bytes: &'a mut [u8]) -> Page<'a>
        ensures lent { result.bytes.ghost_name ≡ bytes.entry.ghost_name }
        ensures made { (held result ≡ []) × (length result.bytes.now ≡ length bytes.old) }
    {
        Page { bytes, at: 0 }
    }

    #[inline(always)]
    pub fn push(&mut self, byte: u8) -> Result<(), Full>
        ensures after { Wrote self.old self.new result (byte ∷ []) }
        ensures refused { OnErr result (held self.new ≡ held self.old) }
    {
        if self.at == self.bytes.len() {
            return Err(Full);
        }
        // the bytes are lent, so the next place is an index, here and in `text`
        self.bytes[self.at] = byte;
        self.at += 1;
        Ok(())
    }

    #[inline(always)]
    pub fn text(&mut self, text: &[u8]) -> Result<(), Full>
        ensures after { Wrote self.old self.new result text.now }
        ensures refused { OnErr result (held self.new ≡ held self.old) }
    {
        if text.len() > self.bytes.len() - self.at {
            return Err(Full);
        }
        let end = self.at + text.len();
        self.bytes[self.at..end].copy_from_slice(text);
        self.at = end;
        Ok(())
    }

    /// A figure in decimal digits, each written in its place.
    #[inline(always)]
    #[tactic(auto, using(std::proofs::lemmas::Fmt::decimal_digit))]
    pub fn figure(&mut self, n: u64) -> Result<(), Full>
        ensures after { Wrote self.old self.new result (decimal n) }
        ensures refused { OnErr result (held self.new ≡ held self.old) }
    {
        if n < 10 {
            return self.push(b'0' + n as u8);
        }
        let digits = count_digits(n);
        if digits > self.bytes.len() - self.at {
            return Err(Full);
        }
        let end = self.at + digits;
        write_digits(n, self.bytes, end);
        self.at = end;
        Ok(())
    }

    /// A signed amount, with a minus where it is below zero.
    #[inline(always)]
    pub fn cents(&mut self, amount: Money) -> Result<(), Full>
        ensures after { Wrote self.old self.new result (signed_decimal amount.0) }
        ensures refused { OnErr result (held self.new ≡ held self.old) }
    {
        let start = self.at;
        if amount.0 < 0 {
            self.push(b'-')?;
        }
        let digits = self.figure(amount.0.unsigned_abs());
        if digits.is_err() {
            // the minus is taken back where its digits do not fit
            self.at = start;
        }
        digits
    }

    /// Ends the page: zeros after what was written. The answer is how many bytes were written.
    pub fn finish(self) -> usize
        ensures value { result ≡ length (held self.entry) }
        ensures after { self.exit.0.now ≡ padded (length self.entry.bytes.now) (held self.entry) }
    {
        let Page { bytes, at } = self;
        bytes[at..].fill(0);
        at
    }
}
