//! Questions about lists of numbers.
ghost use Rattle.std.specs.Prelude.{◌≡◌};
ghost use Rattle.mt_skel.specs.Keyed.{among, rises};
ghost use Rattle.mt_skel.specs.Rising.{is_above};

/// Whether a number is one of these.
pub fn is_among(numbers: &[u64], number: u64) -> bool
    ensures { result ≡ among numbers.now number }
{
    numbers.iter().any(|other| *other == number)
}

/// Whether a number is above the last one, if there was one.
pub fn is_above(last: Option<u64>, number: u64) -> bool
    ensures { result ≡ is_above last number }
{
    match last {
        Some(last) => last < number,
        None => true,
    }
}

/// Whether numbers strictly rise. Takes no memory.
pub fn are_rising(numbers: &[u64]) -> bool
    ensures { result ≡ rises (λ k. k) numbers.now }
{
    let mut last = None;
    'numbers: for number in numbers {
        if !is_above(last, *number) {
            return false;
        }
        last = Some(*number);
    }
    true
}
