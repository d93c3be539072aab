// Rows that fall apart into two groups with no candidate in common.
ghost use Rattle.std.specs.Prelude.{◌≡◌, ◌⊎◌, ◌<◌, length};
ghost use Rattle.std.specs.Int.Bits.{bit_and};
ghost use Rattle.bits.specs.Bits.{Decides, Part};
ghost use Rattle.cheapest_nodes.specs.Nodes.{Closed, Component};

// Whether x is apart from a or in a, and not partly in it.
fn apart_or_in(x: u64, a: u64) -> bool
    ensures { Decides ((bit_and x a ≡ 0) ⊎ Part x a) result }
{
    x & a == 0 || x & a == x
}

// Whether no unmet row is partly in a.
fn closed(rows: &[u64], s: u64, free: u64, a: u64) -> bool
    ensures { Decides (Closed rows.now (length rows.now) s free a) result }
{
    for row in rows {
        if row & s == 0 && !apart_or_in(row & free, a) {
            return false;
        }
    }
    true
}

// a with what is free of each unmet row that it meets, in one pass.
fn spread(rows: &[u64], s: u64, free: u64, a: u64) -> u64 {
    let mut acc = a;
    for row in rows {
        if row & s == 0 {
            let x = row & free;
            if x & acc != 0 {
                acc |= x;
            }
        }
    }
    acc
}

// a spread until nothing changes, in at most 64 passes. `component` tests what it gets, so neither has a contract.
fn grown(rows: &[u64], s: u64, free: u64, a: u64) -> u64 {
    let mut old = a;
    for _ in 0..64 {
        let new = spread(rows, s, free, old);
        if new == old {
            return old;
        }
        old = new;
    }
    old
}

// The free candidates that are linked to m by unmet rows. That no fewer would do is left open.
pub fn component(rows: &[u64], s: u64, free: u64, m: u64) -> u64
    ensures { Component rows.now s free result }
{
    let a = free & grown(rows, s, free, m);
    if closed(rows, s, free, a) {
        return a;
    }
    free
}

// Whether a and b are less than free, and free is apart from s.
pub fn divides(s: u64, free: u64, a: u64, b: u64) -> bool
    ensures { Decides ((a < free) × (b < free) × (bit_and s free ≡ 0)) result }
{
    a < free && b < free && s & free == 0
}
