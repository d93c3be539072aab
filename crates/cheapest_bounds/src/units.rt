// Costs come in steps: where each cost is a multiple of a unit, a cover that costs less than another costs at least a unit less.
ghost use Rattle.std.specs.Prelude.{◌<◌};
ghost use Rattle.cheapest_bounds.specs.Units.{GreatestDivisor, CommonDivisor, GreatestUnit, LimitBelow};

// The greatest common divisor, by Euclid's algorithm.
pub fn divisor(a: u64, b: u64) -> u64
    ensures { GreatestDivisor a b result }
{
    let mut x = a;
    let mut y = b;
    while y != 0 {
        let r = x % y;
        x = y;
        y = r;
    }
    x
}

// The greatest common divisor of the costs, 0 where all of them are 0. At 1 the costs that are left can't change it.
pub fn common(costs: &[u16]) -> u64
    ensures { CommonDivisor costs.now result }
{
    let mut u: u64 = 0;
    for cost in costs {
        u = divisor(u64::from(*cost), u);
        if u == 1 {
            return u;
        }
    }
    u
}

// The greatest number of which each cost is a multiple, 1 where all costs are 0.
pub fn unit(costs: &[u16]) -> u64
    ensures { GreatestUnit costs.now result }
{
    common(costs).max(1)
}

// The least limit above the multiples of u that are below cost; that it is the least is left open.
pub fn limit_below(cost: u64, u: u64) -> u64
    requires { 0 < u }
    ensures { LimitBelow cost u result }
{
    if cost == 0 {
        return 0;
    }
    (cost - 1) / u * u + 1
}
