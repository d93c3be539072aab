// The multiplication of a problem. Its rows are those of the on cells, by vertex, then output: 17 depends on them, and the covering matrix has
// others.
ghost use Rattle.std.specs.Prelude.{◌≡◌, length};
ghost use Rattle.problem.specs.Problems.{Sized, Stocked};
ghost use Rattle.problem.specs.Matrix.{Multiplies};

use crate::{Problem, cells};
use product::TooMany;

// Puts all irredundant covers first in one of the lent rows, rising, and hands it back, with their count; or tells 17.
pub fn multiply<'a>(
    p: Problem,
    held: &[u64; 256],
    first: &'a mut [u64],
    second: &'a mut [u64],
) -> (&'a mut [u64], Result<usize, TooMany>)
    requires sized { Sized p }
    requires stocked { Stocked p held.now }
    requires first_len { (length first.old ≡ 1024) × (length second.old ≡ 1024) }
    ensures { Multiplies p held.now first.entry second.entry result.0 result.1 }
{
    let mut rows = [0u64; 2048];
    let k = cells::put_rows(p, held, &mut rows);
    let n = p.candidates.count as u64;
    product::multiply_rows(&rows[..k], n, first, second)
}
