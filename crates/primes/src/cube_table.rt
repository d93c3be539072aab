// What each cube may drive, all at once: a table by the numbers of the cubes.
ghost use Rattle.std.specs.Prelude.{◌≡◌, ◌+◌, ◌*◌, ◌^◌, ◌≤◌, length, get_or};
ghost use Rattle.model.specs.Numbers.{cube_number};
ghost use Rattle.table.specs.Cubes.{Cube};
ghost use Rattle.primes.specs.Numbers.{CubesOf};
ghost use Rattle.primes.specs.Blocks.{ClearBelow, Joined, FilledBlock};

use crate::numbers::{self, SpreadTable};
use bits::byte;

// The table, with what the numbers are got from.
#[derive(Clone, Copy)]
pub struct CubeTable {
    pub spreads: SpreadTable,
    pub outputs: [u8; 6561],
}

impl CubeTable {
    // The outputs of a cube.
    pub fn entry(&self, care: usize, value: usize) -> u8
        requires { Cube 8 care value }
        ensures { result ≡ get_or self.now.outputs (cube_number care value) 0 }
    {
        let k = numbers::number(&self.spreads, care, value);
        self.outputs[k]
    }
}

// Each of the s entries from place at on, from its two halves: they stand s and 2 s further on.
fn join(table: &mut [u8], at: usize, s: usize)
    requires { (s ≤ 6561) × (at + 3 * s ≤ length table.old) }
    ensures { Joined table.old at s table.new }
{
    let low = at + s;
    let high = low + s;
    for j in 0..s {
        table[at + j] = table[low + j] & table[high + j];
    }
}

// The three entries of one input from place at on: where it is fixed, the vertices have their rows; where it is free, what both
// have.
fn fill_pair(may: &[u8; 256], value: usize, at: usize, table: &mut [u8])
    requires { (value + 2 ≤ 256) × ClearBelow 1 value × (at + 3 ≤ length table.old) }
    ensures { FilledBlock may.now 1 value at table.old table.new }
{
    let low = may[value];
    let high = may[value + 1];
    table[at + 1] = low;
    table[at + 2] = high;
    table[at] = low & high;
}

// The 3^i entries from place at on: of the cubes whose inputs from i on are fixed as in value. The last of the i inputs splits
// them into three blocks of 3^(i-1), the spread of that input's weight: where it is free, fixed at 0, and fixed at 1. The first is
// got from the other two.
fn fill(may: &[u8; 256], spreads: &SpreadTable, i: u8, value: usize, at: usize, table: &mut [u8])
    requires { (i ≤ 8) × (value + 2 ^ i ≤ 256) × ClearBelow i value × (at + 3 ^ i ≤ length table.old) }
    ensures { FilledBlock may.now i value at table.old table.new }
{
    if i == 0 {
        table[at] = may[value];
        return;
    }
    if i == 1 {
        fill_pair(may, value, at, table);
        return;
    }
    let k = i - 1;
    let half = byte::bound(k);
    let s = numbers::spread(spreads, half);
    let low = at + s;
    fill(may, spreads, k, value, low, table);
    fill(may, spreads, k, value + half, low + s, table);
    join(table, at, s);
}

// The outputs that each cube of n inputs may drive: the first 3^n entries.
pub fn all_cubes(may: &[u8; 256], spreads: &SpreadTable, n: u8) -> [u8; 6561]
    requires { n ≤ 8 }
    ensures { CubesOf may.now n result }
{
    let mut table = [0u8; 6561];
    fill(may, spreads, n, 0, 0, &mut table);
    table
}
