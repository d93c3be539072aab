// Candidates that can be left out: those that no unmet row has, and those that another one can stand in for.
ghost use Rattle.std.specs.Prelude.{◌≡◌, length};
ghost use Rattle.bits.specs.Bits.{Single};
ghost use Rattle.rows.specs.Covers.{Unmet};
ghost use Rattle.cheapest_nodes.specs.Nodes.{Restricted, Shared, Cheaper, Thinned};

use bits::set;
use cheapest_bounds::costs;

// The candidates in the rows that s does not meet; others do no harm.
fn unmet_members(rows: &[u64], s: u64) -> u64
    ensures { Unmet rows.now (length rows.now) s result }
{
    let mut acc = 0;
    for row in rows {
        if row & s == 0 {
            acc |= row;
        }
    }
    acc
}

// Keeps in the entry of each member of x only what is in row.
fn restrict(common: &mut [u64], row: u64, x: u64)
    requires { length common.old ≡ 64 }
    ensures { Restricted row x common.old common.new }
{
    for m in set::members(x) {
        common[set::index(m)] &= row;
    }
}

// For each free candidate, by its number, what the rows that s does not meet and that have it have in common, or less.
fn shared(rows: &[u64], s: u64, free: u64) -> [u64; 64]
    ensures { Shared rows.now (length rows.now) s free result }
{
    let mut common = [u64::MAX; 64];
    for row in rows {
        if row & s == 0 {
            restrict(&mut common, *row, row & free);
        }
    }
    common
}

// A member of x that costs less than m, or as much and has a lower number; where there is none the contract says nothing.
fn cheaper(costs: &[u16], x: u64, m: u64) -> Option<u64>
    requires { Single m }
    ensures { Cheaper costs.now x m result }
{
    let p = costs::price(costs, m);
    for d in set::members(x) {
        let q = costs::price(costs, d);
        let better = q < p || q == p && d < m;
        if better {
            return Some(d);
        }
    }
    None
}

// The free candidates without those that meet no unmet row, or for which another one can stand in at no greater cost.
// That all of these are left out is open.
pub fn thin(rows: &[u64], costs: &[u16], s: u64, free: u64) -> u64
    ensures { Thinned rows.now costs.now s free result }
{
    let common = shared(rows, s, free);
    let mut f = free & unmet_members(rows, s);
    for m in set::members(f) {
        let others = set::minus(f, m);
        if cheaper(costs, others & common[set::index(m)], m).is_some() {
            f = others;
        }
    }
    f
}
