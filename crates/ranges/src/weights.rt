// Weights put together from two lists.
ghost use Rattle.std.specs.Prelude.{◌≡◌, ◌≤◌, ◌<◌, length};
ghost use Rattle.cheapest_bounds.specs.Units.{CommonUnit};
ghost use Rattle.ranges.specs.Rivals.{mixed_entry, Mixed};

use bits::set;
use cheapest_bounds::units;

// x for a member i of a, y for another member of b, else 0.
fn entry(x: u16, y: u16, a: u64, b: u64, i: u64) -> u16
    requires { i < 64 }
    ensures { result ≡ mixed_entry x y a b i }
{
    if set::has(a, i) {
        return x;
    }
    if set::has(b, i) {
        return y;
    }
    0
}

// The first weights for the members of a, the second ones for the other members of b, 0 for all else.
pub fn mixed(first: &[u16], second: &[u16], a: u64, b: u64) -> [u16; 64]
    requires first_len_bound { length first.now ≤ 64 }
    requires second_len { length second.now ≡ length first.now }
    ensures { Mixed first.now second.now a b result }
{
    let mut w = [0; 64];
    for (i, x) in first.iter().enumerate() {
        w[i] = entry(*x, second[i], a, b, i as u64);
    }
    w
}

// The greatest number of which all ends are multiples, 1 where all are 0.
pub fn common(low: &[u16], high: &[u16]) -> u64
    ensures { CommonUnit low.now result × CommonUnit high.now result }
{
    units::divisor(units::common(low), units::common(high)).max(1)
}
