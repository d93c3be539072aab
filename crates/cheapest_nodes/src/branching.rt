// The candidate to branch on.
ghost use Rattle.std.specs.Prelude.{◌≡◌, ◌⊎◌, ◌<◌, Some};
ghost use Rattle.bits.specs.Bits.{Member};
ghost use Rattle.cheapest_nodes.specs.Nodes.{Chosen};

use bits::set;
use cheapest_bounds::costs;

// How a search for a cover goes on from a set: it is done, no cover is left, or this candidate is tried.
#[derive(Clone, Copy)]
pub enum Choice {
    Done,
    Lost,
    Try(u64),
}

// How many rows m meets that s does not; 65535 stands for more, so that a product with a cost fits. The count is left open: it only
// chooses what is tried first. `&` and a sum that can't fail make no branch for each row, since
// which rows count can't be foreseen.
fn gain(rows: &[u64], s: u64, m: u64) -> u64
    ensures { result < 65536 }
{
    let mut met: u64 = 0;
    for row in rows {
        met = met.wrapping_add(u64::from((row & s == 0) & (row & m != 0)));
    }
    met.min(65535)
}

// The member of x of most gain per cost, the lowest among equals; the contract says only that it is a member.
pub fn most_effective(rows: &[u64], costs: &[u16], s: u64, x: u64) -> u64
    requires { 0 < x }
    ensures { Member x result }
{
    let mut pick = set::lowest(x);
    let mut most = gain(rows, s, pick);
    for m in set::members(set::minus(x, pick)) {
        let more = gain(rows, s, m);
        if most * costs::price(costs, m) < more * costs::price(costs, pick) {
            pick = m;
            most = more;
        }
    }
    pick
}

// The one of x and y that has fewer members, y among equals; x if there is no y.
fn smaller(x: u64, y: Option<u64>) -> u64
    ensures { (result ≡ x) ⊎ (y ≡ Some result) }
{
    match y {
        Some(y) => set::fewer(y, x),
        None => x,
    }
}

// The most effective free candidate of the unmet row with fewest of them; or that s is a cover, or that none lies between s and s | free.
// Which candidate is tried is left open.
pub fn choose(rows: &[u64], costs: &[u16], s: u64, free: u64) -> Choice
    ensures { Chosen rows.now s free result }
{
    let mut pick = None;
    for row in rows {
        if row & s == 0 {
            let x = row & free;
            if x == 0 {
                return Choice::Lost;
            }
            pick = Some(smaller(x, pick));
        }
    }
    match pick {
        Some(x) => Choice::Try(most_effective(rows, costs, s, x)),
        None => Choice::Done,
    }
}
