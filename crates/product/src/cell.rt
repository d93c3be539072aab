// One cell. A product that meets its row stays; another is joined with each member of the row, where no product that stays is contained in the
// outcome. So each product that remains is put once and none is dropped again: the count is exact, and 17 is told where it is due.
// The rows are lent, and no list may grow here: how many products a row holds stands beside it.
ghost use Rattle.std.specs.Prelude.{◌≤◌, ◌≡◌, ◌++◌, length, take};
ghost use Rattle.product.specs.Steps.{Held, meeting, with, extended, stepped};

use crate::TooMany;
use bits::set;
use rows::covering;

// Puts the products that meet r first in the other row, and returns how many they are.
fn keep(ps: &[u64], r: u64, to: &mut [u64]) -> usize
    requires { (length ps.now ≤ 1024) × (length to.old ≡ 1024) }
    ensures { Held (meeting r ps.now) to.new (Ok result) }
{
    let mut kept = 0;
    for p in ps {
        if r & p != 0 {
            to[kept] = *p;
            kept += 1;
        }
    }
    kept
}

// Puts p with each member of x, one by one, behind the products held, as long as there is room.
fn join_each(p: u64, x: u64, to: &mut [u64], held: usize) -> Result<usize, TooMany>
    requires { (length to.old ≡ 1024) × (held ≤ 1024) }
    ensures { Held (take held to.old ++ with p x) to.new result }
{
    let mut count = held;
    for m in set::members(x) {
        if count == to.len() {
            return Err(TooMany);
        }
        to[count] = p | m;
        count += 1;
    }
    Ok(count)
}

// Joins p with each member of r where p does not meet r, but for the members barred: those that are all that one of the kept has beyond p.
fn extend(p: u64, r: u64, kept: usize, to: &mut [u64], held: usize) -> Result<usize, TooMany>
    requires { (length to.old ≡ 1024) × (kept ≤ held) × (held ≤ 1024) }
    ensures { Held (take held to.old ++ extended (take kept to.old) r p) to.new result }
{
    if r & p != 0 {
        return Ok(held);
    }
    let barred = covering::privates(&to[..kept], !p);
    join_each(p, set::minus(r, barred), to, held)
}

// One cell: the products of `ps` into the other row. Returns how many remain, unless they are more than 1,024.
pub fn step(ps: &[u64], r: u64, to: &mut [u64]) -> Result<usize, TooMany>
    requires { (length ps.now ≤ 1024) × (length to.old ≡ 1024) }
    ensures { Held (stepped r ps.now) to.new result }
{
    let kept = keep(ps, r, to);
    let mut count = kept;
    for p in ps {
        count = extend(*p, r, kept, to, count)?;
    }
    Ok(count)
}
