// Members of a 64-bit set.
ghost use Rattle.std.specs.Prelude.{◌≡◌, ◌-◌, ◌^◌, ◌≤◌, ◌<◌};
ghost use Rattle.model.specs.Base.{bit};
ghost use Rattle.bits.specs.Bits.{Decides, Single, Minus, Highest, Lowest, Index, fewer, removed};

// The set of the one member i: 2^i.
pub fn power(i: u64) -> u64
    requires { i < 64 }
    ensures { result ≡ 2 ^ i }
{
    1u64 << i
}

// The members below i: 2^i - 1.
pub fn low_mask(i: u64) -> u64
    requires { i ≤ 64 }
    ensures { result ≡ 2 ^ i - 1 }
{
    if i == 64 {
        return u64::MAX;
    }
    power(i) - 1
}

// Whether i is a member of s.
pub fn has(s: u64, i: u64) -> bool
    requires { i < 64 }
    ensures { result ≡ bit i s }
{
    (s >> i) & 1 == 1
}

// Whether x has exactly one member. (`is_power_of_two` would say it by the number of ones, and the laws of sets speak of the members.)
pub fn is_single(x: u64) -> bool
    ensures { Decides (Single x) result }
{
    x != 0 && x & (x - 1) == 0
}

// The members of a that are not in b.
pub fn minus(a: u64, b: u64) -> u64
    ensures { Minus a b result }
{
    a ^ (a & b)
}

// The lowest member of x.
pub fn lowest(x: u64) -> u64
    requires { 0 < x }
    ensures { Lowest x result }
{
    minus(x, x - 1)
}

// The members of a set, each as a set of one, lowest first: those of rest are still to come.
#[derive(Clone, Copy, Debug, PartialEq, Eq)]
pub struct MembersIter {
    pub rest: u64,
}

// The members of x.
pub fn members(x: u64) -> MembersIter
    ensures { result.rest ≡ x }
{
    MembersIter { rest: x }
}

impl Iterator for MembersIter {
    ghost use Rattle.std.specs.Iterator.{at_most};
    ghost use Rattle.std.specs.Int.Count.{ones};
    ghost use Rattle.bits.specs.Bits.{TakesLowest};

    type Item = u64;

    ghost next_gives = { λ s r t. TakesLowest s.rest r t.rest };

    ghost remaining = { λ s. at_most (ones s.rest) };

    fn next(&mut self) -> Option<u64> {
        if self.rest == 0 {
            return None;
        }
        let m = lowest(self.rest);
        self.rest = minus(self.rest, m);
        Some(m)
    }
}

// The highest member of x.
pub fn highest(x: u64) -> u64
    requires { 0 < x }
    ensures { Highest x result }
{
    power(u64::from(63 - x.leading_zeros()))
}

// The index of the one member of m.
pub fn index(m: u64) -> usize
    requires { Single m }
    ensures { Index m result }
{
    m.trailing_zeros() as usize
}

// The one of x and y that has fewer members, x where they have as many.
#[tactic(auto, unfolding(crate::specs::Bits::fewer))]
pub fn fewer(x: u64, y: u64) -> u64
    ensures { result ≡ fewer x y }
{
    if y.count_ones() < x.count_ones() {
        y
    } else {
        x
    }
}

// The set s without member k, those above it moved down by one.
pub fn removed(s: u64, k: u64) -> u64
    requires { k < 64 }
    ensures { result ≡ removed k s }
{
    let low = power(k) - 1;
    (s & low) | minus(s >> 1, low)
}
