// Costs of candidates and sets.
ghost use Rattle.std.specs.Prelude.{◌≡◌, ◌≤◌, length};
ghost use Rattle.bits.specs.Bits.{Single};
ghost use Rattle.cheapest_bounds.specs.Costs.{cost_of, Price, Floor};

use bits::set;

// The cost where there is no cover: more than any set of 64 candidates of 16-bit costs has.
pub const NO_COST: u64 = 64 * 65536 + 1;

// A set and its cost: the best cover known, or a cost to stay below.
#[derive(Clone, Copy)]
pub struct Incumbent {
    pub cost: u64,
    pub set: u64,
}

// The cost of the one candidate in m.
pub fn price(costs: &[u16], m: u64) -> u64
    requires { Single m }
    ensures { Price costs.now m result }
{
    match costs.get(set::index(m)) {
        Some(cost) => u64::from(*cost),
        None => 0,
    }
}

// At most the cost of the cheapest member of x: the bounds need no more.
pub fn floor(costs: &[u16], x: u64) -> u64
    ensures { Floor costs.now x result }
{
    let mut low: u64 = 65535;
    for m in set::members(x) {
        let p = price(costs, m);
        if p == 0 {
            return 0;
        }
        low = low.min(p);
    }
    low
}

// The cost of x.
pub fn total(costs: &[u16], x: u64) -> u64
    requires { length costs.now ≤ 64 }
    ensures { result ≡ cost_of costs.now x }
{
    let mut sum = 0;
    for m in set::members(x) {
        sum += price(costs, m);
    }
    sum
}
