// Where a search for a cover stands.
ghost use Rattle.std.specs.Prelude.{◌≡◌, ◌<◌, ◌≤◌, length};
ghost use Rattle.cheapest_bounds.specs.Costs.{cost_of, no_cost};

// Rows and the costs of the candidates; s is taken, at cost, and free is what may still be taken.
#[derive(Clone, Copy)]
pub struct Node<'a> {
    pub rows: &'a [u64],
    pub costs: &'a [u16],
    pub s: u64,
    pub free: u64,
    pub cost: u64,
    pub ghost few_rows: { length rows.now ≤ 2048 },
    pub ghost few_costs: { length costs.now ≤ 64 },
    pub ghost cost_is: { cost ≡ cost_of costs.now s },
    // Follows from the others; so sums with it fit.
    pub ghost cost_small: { cost < no_cost },
}
