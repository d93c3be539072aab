// The eight rows of a B at once, for a block: tested by all their bits together, and put.
//
// The vertices of a B differ, so that no row of it bars another: each is held to the rows before the B. A no leaves the B to
// `commands::eight_rows`, which tells its refusal.
#![tactic(auto)]

ghost use Rattle.std.specs.Prelude.{◌≡◌, ◌+◌, ◌*◌, ◌≤◌, ◌<◌, T, get_or, length, drop};
ghost use Rattle.std.specs.Int.Bits.{bit_and};
ghost use Rattle.model.specs.Commands.{rows_of_b};
ghost use Rattle.problem.specs.Problems.{rows_put};
ghost use Rattle.eight_rows.specs.Rows.{EightAt};

use bits::byte;
use problem::{Settings, TableRows};

// Bits that hold those of each of the bytes.
fn union(bytes: &[u8]) -> u8
    ensures { (i : _) → i < length bytes.now → get_or bytes.now i 0 ≤ result }
{
    let mut all = 0;
    for b in bytes {
        all |= *b;
    }
    all
}

// Bits that hold those which an on shares with its dc, in the eight pairs from `at` on. (Its bytes go by pairs, so `union` can't tell it.)
fn shared(job: &[u8], at: usize) -> u8
    requires { at + 16 ≤ length job.now }
    ensures { (i : _) → i < 8 → bit_and (get_or job.now (at + 2 * i) 0) (get_or job.now (at + 2 * i + 1) 0) ≤ result }
{
    let mut all = 0;
    for i in 0..8 {
        all |= job[at + 2 * i] & job[at + 2 * i + 1];
    }
    all
}

// Whether a B stands at `at` that is accepted. Only a yes is promised to mean something.
pub fn is_accepted(s: Settings, given: &[u8; 256], job: &[u8], at: usize) -> bool
    requires n_bound { (s.n ≤ 8) × (s.m ≤ 8) }
    requires at_in_bounds { at ≤ length job.now }
    ensures { T result → EightAt s given.now job.now at }
{
    if job.len() - at < 18 || job[at] != 0x42 {
        return false;
    }
    let v = usize::from(job[at + 1]);
    if byte::bound(s.n) < v + 8 || union(&given[v..v + 8]) != 0 || shared(job, at + 2) != 0 {
        return false;
    }
    usize::from(union(&job[at + 2..at + 18])) < byte::bound(s.m)
}

// Puts the rows of the B whose operands stand at `at`.
pub fn put(rows: &mut TableRows, job: &[u8], at: usize)
    requires at_in_bounds { at + 17 ≤ length job.now }
    requires at_bound { get_or job.now at 0 + 8 ≤ 256 }
    ensures { rows.new ≡ rows_put rows.old (rows_of_b (drop at job.now)) }
{
    let v = usize::from(job[at]);
    for i in 0..8 {
        rows.on[v + i] = job[at + 1 + 2 * i];
        rows.dc[v + i] = job[at + 2 + 2 * i];
        rows.given[v + i] = 1;
    }
}
