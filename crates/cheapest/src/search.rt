// The cheapest cover: the least cost, then the least number.
ghost use Rattle.std.specs.Prelude.{◌≤◌, length};
ghost use Rattle.cheapest_bounds.specs.Units.{CommonUnit};
ghost use Rattle.cheapest.specs.Optimum.{Priced, Valued, LeastCost, Cheapest, Optimal};

use crate::greedy;
use bits::set;
use cheapest_bounds::costs::Incumbent;
use cheapest_bounds::{costs, units};
use cheapest_nodes::node::Node;
use cheapest_nodes::plan::Next;

// The cheapest cover between s and s | free if it costs less than best, else best. cost is that of s, and unit measures the costs.
// best is a bound to stay below, whether a cover is known or not, so it and the result are no Options. What is asked is named for this function
// in docs/DECISIONS.md, so it takes the parts of a node one by one.
pub fn value(
    rows: &[u64],
    costs: &[u16],
    unit: u64,
    s: u64,
    free: u64,
    cost: u64,
    best: Incumbent,
) -> Incumbent
    requires rows_len_bound { length rows.now ≤ 2048 }
    requires common_unit { CommonUnit costs.now unit }
    requires priced { Priced costs.now s cost best.cost }
    ensures { Valued rows.now costs.now s free best result }
{
    let limit = units::limit_below(best.cost, unit);
    let node = Node {
        rows,
        costs,
        s,
        free,
        cost,
    };
    match node.plan(limit) {
        Next::Cut => best,
        Next::Done => Incumbent { cost, set: s },
        Next::Split(useful, part) => {
            // With all of other taken only part's rows are left; the bound is as far above the cost as best is.
            let other = set::minus(useful, part);
            let spent = costs::total(costs, other);
            let over = best.cost + spent;
            let bound = Incumbent { cost: over, set: 0 };
            let p = value(rows, costs, unit, s | other, part, cost + spent, bound);
            if over <= p.cost {
                return best;
            }
            let taken = p.set & part;
            let paid = cost + costs::total(costs, taken);
            value(rows, costs, unit, s | taken, other, paid, best)
        }
        Next::Branch(useful, m) => {
            let rest = set::minus(useful, m);
            let paid = cost + costs::price(costs, m);
            let with = value(rows, costs, unit, s | m, rest, paid, best);
            value(rows, costs, unit, s, rest, cost, with)
        }
    }
}

// The first of the covers below 2^n that cost as little as best does: from the top, leaves out each candidate that it can do without.
// The witness is such a cover with the members decided so far: where it lacks a candidate there is nothing to search for.
fn first(rows: &[u64], costs: &[u16], unit: u64, n: u64, best: Incumbent) -> u64
    requires rows_len_bound { length rows.now ≤ 2048 }
    requires common_unit { CommonUnit costs.now unit }
    requires n_bound { n ≤ 64 }
    requires costs_len_bound { length costs.now ≤ 64 }
    requires least_cost { LeastCost rows.now costs.now n best }
    ensures { Cheapest rows.now costs.now n best.cost result }
{
    let mut s: u64 = 0;
    let mut cost: u64 = 0;
    let mut witness = best.set;
    for i in (0..n).rev() {
        let m = set::power(i);
        if witness & m != 0 {
            let limit = Incumbent {
                cost: best.cost + 1,
                set: 0,
            };
            let without = value(rows, costs, unit, s, set::low_mask(i), cost, limit);
            if without.cost == best.cost {
                witness = without.set;
            } else {
                cost += costs::price(costs, m);
                s += m;
            }
        }
    }
    s
}

// The cover of least cost, and of these the least number, with its cost, where there is a cover; candidates are as many as costs.
pub fn cheapest(rows: &[u64], costs: &[u16]) -> Option<Incumbent>
    requires rows_len_bound { length rows.now ≤ 2048 }
    requires costs_len_bound { length costs.now ≤ 64 }
    ensures { Optimal rows.now costs.now result }
{
    let n = costs.len() as u64;
    let free = set::low_mask(n);
    let unit = units::unit(costs);
    let best = value(
        rows,
        costs,
        unit,
        0,
        free,
        0,
        greedy::start(rows, costs, free),
    );
    if best.cost == costs::NO_COST {
        return None;
    }
    let set = first(rows, costs, unit, n, best);
    Some(Incumbent {
        cost: best.cost,
        set,
    })
}
