// What one cube may drive, for a term: by its two halves, as long as an input is free.
ghost use Rattle.std.specs.Prelude.{◌≡◌, ◌^◌, ◌≤◌, ◌<◌, get_or};
ghost use Rattle.std.specs.Int.Bits.{bit_and};
ghost use Rattle.bits.specs.Bits.{Lowest};
ghost use Rattle.table.specs.Cubes.{Cube, Free, Drives, DrivesFree};

use bits::byte;

// The inputs of n that care leaves free, as a set.
fn free_inputs(n: u8, care: u8) -> u8
    requires { (n ≤ 8) × (care < 2 ^ n) }
    ensures { Free n care result }
{
    (byte::bound(n) - 1 - usize::from(care)) as u8
}

// The first of the free inputs, as a set: `set::lowest` for a byte, which needs no cast back.
fn first_free(free: u8) -> u8
    requires { 0 < free }
    ensures { Lowest free result }
{
    free ^ (free & (free - 1))
}

// The outputs that two vertices may drive.
fn pair(may: &[u8; 256], v: u8, w: u8) -> u8
    ensures { result ≡ bit_and (get_or may.now v 0) (get_or may.now w 0) }
{
    may[usize::from(v)] & may[usize::from(w)]
}

// The outputs that a cube with free inputs may drive: those that both halves may drive. A half has one free input less, so the
// recursion ends. Cubes of two and four vertices are read at once, and where one half may drive nothing, the other is left out.
fn halves(may: &[u8; 256], free: u8, value: u8) -> u8
    requires { 0 < free }
    ensures { DrivesFree may.now free value result }
{
    let i = first_free(free);
    let rest = free - i;
    let up = value | i;
    if rest == 0 {
        return pair(may, value, up);
    }
    let k = first_free(rest);
    if rest == k {
        return pair(may, value, value | k) & pair(may, up, up | k);
    }
    let low = halves(may, rest, value);
    if low == 0 {
        return 0;
    }
    let high = halves(may, rest, up);
    low & high
}

// The outputs that a cube may drive: without a free input those of its one vertex, else those that both halves may drive.
pub fn drives(may: &[u8; 256], n: u8, care: u8, value: u8) -> u8
    requires { Cube n care value }
    ensures { Drives may.now n care value result }
{
    let first = may[usize::from(value)];
    if first == 0 {
        return 0;
    }
    let free = free_inputs(n, care);
    if free == 0 {
        return first;
    }
    halves(may, free, value)
}
