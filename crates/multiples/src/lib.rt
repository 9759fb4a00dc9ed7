// Multiples of a size: where it is a power of two a mask decides, else the remainder.
#![tactic(auto)]

ghost use Rattle.std.specs.Prelude.{◌≡◌, ◌≤◌};
ghost use Rattle.arith.specs.Multiples.{multiple};
ghost use Rattle.multiples.specs.Powers.{is_power_of_two, masked};

// What a mask of the size less one leaves of n.
#[tactic(auto, unfolding(crate::specs::Powers::masked))]
fn mask(size: u64, n: u64) -> u64
    requires { 1 ≤ size }
    ensures { result ≡ masked size n }
{
    n & (size - 1)
}

// stays: the theorem `MaskDecides` is of the test that the mask makes, which `u64::is_power_of_two` does not make.
#[tactic(auto, unfolding(crate::specs::Powers::is_power_of_two))]
fn is_power_of_two(size: u64) -> bool
    ensures { result ≡ is_power_of_two size }
{
    1 <= size && mask(size, size) == 0
}

// Is n a multiple of the size? (0 alone is one of 0.)
pub fn is_multiple(size: u64, n: u64) -> bool
    ensures { result ≡ multiple size n }
{
    if is_power_of_two(size) {
        mask(size, n) == 0
    } else {
        n.is_multiple_of(size)
    }
}
