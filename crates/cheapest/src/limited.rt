// A cover below a limit.
ghost use Rattle.std.specs.Prelude.{◌≤◌, length};
ghost use Rattle.cheapest_bounds.specs.Units.{CommonUnit};
ghost use Rattle.cheapest.specs.Optimum.{Priced, Below};

use crate::search;
use bits::set;
use cheapest_bounds::costs::Incumbent;
use cheapest_bounds::{costs, units};
use cheapest_nodes::node::Node;
use cheapest_nodes::plan::Next;

// A cover between s and s | free that costs less than limit, the first that is found, with its cost. cost is that of s, and unit measures
// the costs. It's not one function with the search for the cheapest: that would test at each node which of the two is asked, and its contract
// would say both.
pub fn below(
    rows: &[u64],
    costs: &[u16],
    unit: u64,
    s: u64,
    free: u64,
    cost: u64,
    limit: u64,
) -> Option<Incumbent>
    requires rows_len_bound { length rows.now ≤ 2048 }
    requires common_unit { CommonUnit costs.now unit }
    requires priced { Priced costs.now s cost limit }
    ensures { Below rows.now costs.now s free limit result }
{
    let lower = units::limit_below(limit, unit);
    let node = Node {
        rows,
        costs,
        s,
        free,
        cost,
    };
    match node.plan(lower) {
        Next::Cut => None,
        Next::Done => Some(Incumbent { cost, set: s }),
        Next::Split(useful, part) => {
            // As in the search for the cheapest: part is settled first, with all of other taken.
            let other = set::minus(useful, part);
            let spent = costs::total(costs, other);
            let over = limit + spent;
            let bar = Incumbent { cost: over, set: 0 };
            let p = search::value(rows, costs, unit, s | other, part, cost + spent, bar);
            if over <= p.cost {
                return None;
            }
            let taken = p.set & part;
            let paid = cost + costs::total(costs, taken);
            below(rows, costs, unit, s | taken, other, paid, limit)
        }
        Next::Branch(useful, m) => {
            let rest = set::minus(useful, m);
            let paid = cost + costs::price(costs, m);
            match below(rows, costs, unit, s | m, rest, paid, limit) {
                Some(with) => Some(with),
                None => below(rows, costs, unit, s, rest, cost, limit),
            }
        }
    }
}
