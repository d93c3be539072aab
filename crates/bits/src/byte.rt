// Bits of a byte.
ghost use Rattle.std.specs.Prelude.{◌≡◌, ◌^◌, ◌≤◌, ◌<◌, eqb};
ghost use Rattle.std.specs.Int.Bits.{bit_and};
ghost use Rattle.model.specs.Base.{bit};

use crate::set;

// 2^i as a byte. A twin of `set::power` and of `bound`: each is one shift at its own width, and a generic one would have to say so of every
// width.
pub fn power(i: u8) -> u8
    requires { i < 8 }
    ensures { result ≡ 2 ^ i }
{
    1u8 << i
}

// 2^k: the number of vertices of k inputs, the bound of k outputs.
pub fn bound(k: u8) -> usize
    requires { k ≤ 8 }
    ensures { result ≡ 2 ^ k }
{
    1usize << k
}

// Whether s has bit i: `set::has` for a byte, since a generic one would have to say in its contract what number a T is.
pub fn has(s: u8, i: u8) -> bool
    requires { i < 8 }
    ensures { result ≡ bit i s }
{
    set::has(u64::from(s), u64::from(i))
}

// Whether each bit of a is one of b.
pub fn within(a: u8, b: u8) -> bool
    ensures { result ≡ eqb (bit_and a b) a }
{
    a & b == a
}
