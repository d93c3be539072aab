// The covering matrix of a problem: what L, V and C search, and refusal 12.
ghost use Rattle.std.specs.Prelude.{◌≡◌, length};
ghost use Rattle.problem.specs.Problems.{Sized};
ghost use Rattle.problem.specs.Matrix.{PresenceOfAll, PutsRows, Prepares};

use crate::{Problem, cells};
use bits::set;
use incidence::presence;
use rows::reduction;

// How many rows stand in front of the array that they were put into, and whether each on cell is held by a candidate: 12 does not apply. The rows
// stand there either way, so `covered` is no None.
#[derive(Clone, Copy)]
pub struct Matrix {
    pub count: usize,
    pub covered: bool,
}

// Whether each on cell is held by a candidate: document 000's presence function at the set of all candidates.
pub fn is_covered(p: Problem, held: &[u64; 256]) -> bool
    requires { Sized p }
    ensures { PresenceOfAll p held.now result }
{
    let all = set::low_mask(p.candidates.count as u64);
    presence::presence(
        &p.rows.on,
        &p.candidates.terms[..p.candidates.count],
        p.candidates.blocks,
        held,
        p.settings.n,
        p.settings.m,
        all,
    )
}

// Puts the rows that contain no other row in front of `out`, those with few members first, and returns how many.
pub fn put_rows(p: Problem, held: &[u64; 256], out: &mut [u64]) -> usize
    requires sized { Sized p }
    requires out_len { length out.old ≡ 2048 }
    ensures { PutsRows p held.now out.new result }
{
    let mut all = [0u64; 2048];
    let n = cells::put_rows(p, held, &mut all);
    reduction::reduce(&all[..n], out)
}

// The covering matrix, its rows in front of `out`.
pub fn prepare(p: Problem, held: &[u64; 256], out: &mut [u64]) -> Matrix
    requires sized { Sized p }
    requires out_len { length out.old ≡ 2048 }
    ensures { Prepares p held.now out.new result }
{
    let covered = is_covered(p, held);
    Matrix {
        count: put_rows(p, held, out),
        covered: covered,
    }
}
