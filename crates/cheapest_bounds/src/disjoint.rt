// A lower bound for the cost of a cover: disjoint rows, each by its cheapest member.
ghost use Rattle.std.specs.Prelude.{◌≤◌, length};
ghost use Rattle.cheapest_bounds.specs.Costs.{Fresh, Bound};

use crate::costs;

// What is free of the row, if s does not meet the row and used has none of it. Which rows are left out is open.
fn fresh(row: u64, s: u64, free: u64, used: u64) -> Option<u64>
    ensures { Fresh row s free used result }
{
    if row & s == 0 {
        let x = row & free;
        if used & x == 0 {
            return Some(x);
        }
    }
    None
}

// What a cover between s and s | free costs more than s, at least: a floor for each of some disjoint unmet rows. Where a row has
// no member there, more than any set costs. How near it comes is left open.
pub fn bound(rows: &[u64], costs: &[u16], s: u64, free: u64) -> u64
    requires { length costs.now ≤ 64 }
    ensures { Bound rows.now costs.now s free result }
{
    let mut used: u64 = 0;
    let mut sum: u64 = 0;
    for row in rows {
        if row & (s | free) == 0 {
            return costs::NO_COST;
        }
        if let Some(x) = fresh(*row, s, free, used) {
            used |= x;
            sum += costs::floor(costs, x);
        }
    }
    sum
}
