// A first cover to beat.
ghost use Rattle.std.specs.Prelude.{◌≤◌, length};
ghost use Rattle.bits.specs.Bits.{Part};
ghost use Rattle.cheapest.specs.Optimum.{Known};

use bits::set;
use cheapest_bounds::costs;
use cheapest_bounds::costs::Incumbent;
use cheapest_nodes::branching;
use rows::covering;

// Candidates of free, the one of most gain per cost at each step, until every row is met or none is left. Which ones is left open:
// `start` tests what it gets.
fn greedy(rows: &[u64], costs: &[u16], free: u64) -> u64
    ensures { Part result free }
{
    let mut s: u64 = 0;
    let mut rest = free;
    // The candidates come by their gain and not by their number, so no iterator over the members gives them.
    while rest != 0 {
        if covering::covers(rows, s) {
            return s;
        }
        let m = branching::most_effective(rows, costs, s, rest);
        s |= m;
        rest = set::minus(rest, m);
    }
    s
}

// The greedy cover and its cost, or, where it is no cover, a cost that no set has: either is a bound for the search to start from, so it is no
// Option. Which of the two is left open.
pub fn start(rows: &[u64], costs: &[u16], free: u64) -> Incumbent
    requires { length costs.now ≤ 64 }
    ensures { Known rows.now costs.now free result }
{
    let s = greedy(rows, costs, free);
    if covering::covers(rows, s) {
        return Incumbent {
            cost: costs::total(costs, s),
            set: s,
        };
    }
    Incumbent {
        cost: costs::NO_COST,
        set: 0,
    }
}
