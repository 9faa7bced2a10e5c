// How many digits a figure has.
ghost use Rattle.std.specs.Prelude.{◌≡◌, length, decimal};

/// Four are cut off at a time, since a division costs more than a comparison.
#[inline]
#[tactic(auto, using(crate::proofs::Long::digits_counted))]
pub(crate) fn count_digits(n: u64) -> usize
    ensures { result ≡ length (decimal n) }
{
    let mut left = n;
    let mut cut = 0;
    while left >= 10_000 {
        left /= 10_000;
        cut += 4;
    }
    match left {
        0..=9 => cut + 1,
        10..=99 => cut + 2,
        100..=999 => cut + 3,
        _ => cut + 4,
    }
}
