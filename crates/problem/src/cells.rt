// The rows of a problem's on cells, each cell's own: what N multiplies, and what the covering matrix is made of.
ghost use Rattle.std.specs.Prelude.{◌≡◌, length};
ghost use Rattle.problem.specs.Problems.{Sized};
ghost use Rattle.problem.specs.Matrix.{CellRows};

use crate::Problem;

// Puts the row of each on cell in front of `out`, by vertex, then output, and returns how many.
pub fn put_rows(p: Problem, held: &[u64; 256], out: &mut [u64]) -> usize
    requires sized { Sized p }
    requires out_len { length out.old ≡ 2048 }
    ensures { CellRows p held.now out.new result }
{
    incidence::rows::rows(
        &p.rows.on,
        &p.candidates.terms[..p.candidates.count],
        p.candidates.blocks,
        held,
        p.settings.n,
        p.settings.m,
        out,
    )
}
