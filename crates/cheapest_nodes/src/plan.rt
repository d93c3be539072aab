// What the search for the cheapest cover does next.
ghost use Rattle.std.specs.Prelude.{◌≤◌, length};
ghost use Rattle.cheapest_nodes.specs.Plan.{Open, Planned};

use crate::branching::Choice;
use crate::node::Node;
use crate::{branching, components, dominance, residue};
use bits::set;
use cheapest_bounds::{ascent, disjoint};

// Nothing is left to find; the set is a cover; the first candidates fall into the second ones and the rest; or, of the first, this one
// is tried.
#[derive(Clone, Copy)]
pub enum Next {
    Cut,
    Done,
    Split(u64, u64),
    Branch(u64, u64),
}

impl<'a> Node<'a> {
    // How to look for a cover of the rows, of which s meets none, between s and s | free that costs less than limit. Which way is taken is
    // left open: each is right where it is taken.
    fn decide(&self, limit: u64) -> Next
        requires { Open self.now.rows.now self.now.s self.now.free }
        ensures { let n = self.now in Planned n.rows.now n.costs.now n.s n.free n.cost limit result }
    {
        let Node {
            rows,
            costs,
            s,
            free,
            cost,
        } = *self;
        if limit <= cost + disjoint::bound(rows, costs, s, free) {
            return Next::Cut;
        }
        let kept = ascent::affordable(rows, costs, free, limit - cost);
        let useful = dominance::thin(rows, costs, s, kept);
        match branching::choose(rows, costs, s, useful) {
            Choice::Done => Next::Done,
            Choice::Lost => Next::Cut,
            Choice::Try(m) => {
                let part = components::component(rows, s, useful, m);
                let other = set::minus(useful, part);
                if components::divides(s, useful, part, other) {
                    return Next::Split(useful, part);
                }
                Next::Branch(useful, m)
            }
        }
    }

    // The same for any rows, of which there are N at most: what is free of those that s does not meet is kept, and only that is looked at.
    fn look<const N: usize>(&self, limit: u64) -> Next
        requires rows_len_bound { length self.now.rows.now ≤ N }
        requires size_bound { N ≤ 2048 }
        ensures { let n = self.now in Planned n.rows.now n.costs.now n.s n.free n.cost limit result }
    {
        let mut left = [0; N];
        let n = residue::unmet(self.rows, self.s, self.free, &mut left);
        let node = Node {
            rows: &left[..n],
            costs: self.costs,
            s: self.s,
            free: self.free,
            cost: self.cost,
        };
        node.decide(limit)
    }

    // The same with room for the rows: most tables have few, and it is made anew at each node.
    pub fn plan(&self, limit: u64) -> Next
        ensures { let n = self.now in Planned n.rows.now n.costs.now n.s n.free n.cost limit result }
    {
        if self.rows.len() <= 64 {
            return self.look::<64>(limit);
        }
        self.look::<2048>(limit)
    }
}
