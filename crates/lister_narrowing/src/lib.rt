// The quick test of the lister, over rows as crate `rows` has them: what a set can still grow to.
//
// `narrow` excludes and takes candidates, pass by pass over the rows, until a pass changes nothing or finds that no irredundant cover is
// left. The contracts only say that no irredundant cover is lost; how much is excluded is measured by the benchmark.
#![tactic(auto)]

ghost use Rattle.std.specs.Prelude.{◌≡◌, true};
ghost use Rattle.lister_narrowing.specs.Narrowing.{Only, United, Scanned, Infeasible, Tightened};

use bits::set;

// A set and what it can grow by.
#[derive(Clone, Copy)]
pub struct Tight {
    pub s: u64,
    pub free: u64,
}

// What one pass over the rows finds where each row can be met. A row is private to the member of s that is its only one. owners are the
// members of s that have a private row, unmet has all members of the rows that s does not meet, forced the free candidates that are the
// only ones to meet some row, and taken what stands in all private rows of some member of s.
#[derive(Clone, Copy)]
struct Scan {
    owners: u64,
    unmet: u64,
    forced: u64,
    taken: u64,
}

// x if it has exactly one member, else the empty set.
pub fn only(x: u64) -> u64
    ensures { Only x result }
{
    if set::is_single(x) {
        return x;
    }
    0
}

// The union of common[b] over the members b of s. The contract says only that r has no more.
fn united(common: &[u64; 64], s: u64) -> u64
    ensures { United common.now s result }
{
    let mut acc: u64 = 0;
    for m in set::members(s) {
        acc |= common[set::index(m)];
    }
    acc
}

// One pass over the rows: None where some row can't be met. common[b] is what the private rows of b have in common.
fn gather(rows: &[u64], t: Tight) -> Option<Scan>
    ensures { Scanned rows.now t.s t.free result }
{
    let mut common = [u64::MAX; 64];
    let mut owners: u64 = 0;
    let mut unmet: u64 = 0;
    let mut forced: u64 = 0;
    for row in rows {
        let own = row & t.s;
        if own == 0 {
            let open = row & t.free;
            if open == 0 {
                return None;
            }
            unmet |= row;
            forced |= only(open);
        } else if set::is_single(own) {
            owners |= own;
            common[set::index(own)] &= row;
        }
    }
    Some(Scan {
        owners,
        unmet,
        forced,
        taken: united(&common, t.s),
    })
}

// Whether a pass shows that no irredundant cover is left: a member has no private row, or a forced candidate is excluded.
// The contract says only what `true` means.
fn infeasible(found: Scan, s: u64) -> bool
    ensures { result ≡ true → Infeasible found s }
{
    found.owners != s || found.forced & found.taken != 0
}

// One pass: excludes the free candidates that meet no unmet row or stand in all private rows of some member, and takes the forced ones.
// The contract says only that no irredundant cover is lost.
fn tighten(rows: &[u64], t: Tight) -> Option<Tight>
    ensures { Tightened rows.now t.s t.free result }
{
    let found = gather(rows, t)?;
    if infeasible(found, t.s) {
        return None;
    }
    let left = set::minus(t.free & found.unmet, found.taken);
    Some(Tight {
        s: t.s | found.forced,
        free: set::minus(left, found.forced),
    })
}

// Tightens s and free until nothing changes; None where no irredundant cover is left. The contract says only that none is lost.
// The two come apart and not as a Tight, since the callers make them at the call. Not inlined: each turn of the recursions that call this would
// have the pass's array on the stack.
#[inline(never)]
pub fn narrow(rows: &[u64], s: u64, free: u64) -> Option<Tight>
    ensures { Tightened rows.now s free result }
{
    let mut now = Tight { s, free };
    loop {
        let next = tighten(rows, now)?;
        if next.free == now.free {
            return Some(next);
        }
        now = next;
    }
}
