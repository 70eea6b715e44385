//! Numbers in rising order.
ghost use Rattle.std.specs.Prelude.{◌≡◌, ℕ, IsTrue};
ghost use Rattle.mt_skel.specs.Keyed.{among, rises};

use mt_skel::list::are_rising;

/// These numbers, rising, each once. Takes no memory. Numbers that already rise, as those of most commands do, are not
/// sorted.
pub fn in_order(numbers: Vec<u64>) -> Vec<u64>
    ensures rising { IsTrue (rises (λ k. k) result.items) }
    ensures same { (j : ℕ) → among result.items j ≡ among numbers.items j }
{
    if are_rising(&numbers) {
        return numbers;
    }
    let mut numbers = numbers;
    numbers.sort_unstable();
    numbers.dedup();
    numbers
}
