// The exact test of the lister: whether a set can still grow to an irredundant cover.
//
// `narrow_exactly` narrows as crate `lister_narrowing` does and then tests. Each member of an irredundant cover has a row of its own, so the
// test gives each member a private row to keep: none of that row's free candidates may then be taken. Only `false` says something, so what is
// asked first, what is asked together and where to stop asking are free to choose: the functions that only choose have no contract.
#![tactic(auto)]

ghost use Rattle.std.specs.Prelude.{◌≡◌, false, ◌<◌};
ghost use Rattle.bits.specs.Bits.{Part, Member};
ghost use Rattle.lister_narrowing.specs.Narrowing.{NoneBetween, Tightened};

use bits::set;
use lister_narrowing::Tight;
use rows::covering;

// For each member of s, the free candidates of its private row with fewest of them, and how many private rows it has.
// Two arrays and not one of pairs, which is set entry by entry, and takes three times the stack. Each is passed by value: by reference the
// frame of `extends`, which recurs, is larger.
#[derive(Clone, Copy)]
struct Survey {
    lightest: [u64; 64],
    count: [u64; 64],
}

// Members without a private row that nothing free can meet, and the free candidates of the rows that they would keep.
#[derive(Clone, Copy)]
struct Claim {
    pending: u64,
    taken: u64,
}

// Members that hang together, and the free candidates of their rows.
#[derive(Clone, Copy, PartialEq, Eq)]
struct Group {
    members: u64,
    reach: u64,
}

// One pass over the private rows. A member without a private row keeps all ones, as if its lightest row had every candidate.
fn private_rows(rows: &[u64], t: Tight) -> Survey {
    let mut lightest = [u64::MAX; 64];
    let mut count = [0u64; 64];
    for row in rows {
        let own = row & t.s;
        if set::is_single(own) {
            let k = set::index(own);
            lightest[k] = set::fewer(lightest[k], row & t.free);
            count[k] = count[k].saturating_add(1);
        }
    }
    Survey { lightest, count }
}

// What the members of q claim if each keeps its lightest row.
fn claims(lightest: [u64; 64], q: u64) -> Claim {
    let mut pending: u64 = 0;
    let mut taken: u64 = 0;
    for b in set::members(q) {
        let row = lightest[set::index(b)];
        if row != 0 {
            pending |= b;
            taken |= row;
        }
    }
    Claim { pending, taken }
}

// The member of q with fewest private rows, the lowest among equals. The contract says only that it is one of q.
fn scarcest(count: [u64; 64], q: u64) -> u64
    requires { 0 < q }
    ensures { Member q result }
{
    let mut pick = set::lowest(q);
    let mut fewest = u64::MAX;
    for b in set::members(q) {
        let n = count[set::index(b)];
        if n < fewest {
            pick = b;
            fewest = n;
        }
    }
    pick
}

// The free candidates that the private rows of the members of q have.
fn claimable(rows: &[u64], t: Tight, q: u64) -> u64 {
    let mut acc: u64 = 0;
    for row in rows {
        if lister_narrowing::only(row & t.s) & q != 0 {
            acc |= row & t.free;
        }
    }
    acc
}

// Whether a row links to the group: it is private to one of its members, or it has a candidate in reach and is private to another member
// of q, or unmet with no free candidate outside all. (With one outside, it is met whatever the members keep.)
fn links(row: u64, t: Tight, q: u64, all: u64, group: Group) -> bool {
    let own = lister_narrowing::only(row & t.s) & q;
    if own & group.members != 0 {
        return true;
    }
    if row & t.free & group.reach == 0 {
        return false;
    }
    if row & t.s == 0 {
        return set::minus(row & t.free, all) == 0;
    }
    own != 0
}

// The group with what links to it, in one pass.
fn joined(rows: &[u64], t: Tight, q: u64, all: u64, group: Group) -> Group {
    let mut acc = group;
    for row in rows {
        if links(*row, t, q, all, acc) {
            acc.members |= lister_narrowing::only(row & t.s) & q;
            acc.reach |= row & t.free;
        }
    }
    acc
}

// The members of q that hang together with b: what those keep and what the others keep have no bearing on each other.
fn linked(rows: &[u64], t: Tight, q: u64, b: u64) -> u64 {
    let all = claimable(rows, t, q);
    let mut old = Group {
        members: b,
        reach: 0,
    };
    for _ in 0..128 {
        let new = joined(rows, t, q, all, old);
        if new == old {
            return old.members;
        }
        old = new;
    }
    q
}

// False only if no irredundant cover lies between t.s and t.s | t.free. Asks only the members q for a row to keep: not at all where each can
// keep its lightest; else it tries the rows of the scarcest, with those that hang together with it, and then asks the others.
#[cycle(extends_tries)]
fn extends(rows: &[u64], t: Tight, q: u64) -> bool
    requires { Part q t.s }
    ensures { result ≡ false → NoneBetween rows.now t.s t.free }
{
    let found = private_rows(rows, t);
    let claimed = claims(found.lightest, q);
    let pending = q & claimed.pending;
    if pending == 0 || covering::covers(rows, t.s | set::minus(t.free, claimed.taken)) {
        return true;
    }
    let b = scarcest(found.count, pending);
    let group = linked(rows, t, pending, b);
    let others = set::minus(pending, b);
    tries(rows, t, b, others & group) && extends(rows, t, set::minus(others, group))
}

// False only if no irredundant cover lies between t.s and t.s | t.free: b keeps one private row after the other, and the members q are asked.
#[cycle(extends_tries)]
fn tries(rows: &[u64], t: Tight, b: u64, q: u64) -> bool
    requires { Member t.s b }
    ensures { result ≡ false → NoneBetween rows.now t.s t.free }
{
    for row in rows {
        if row & t.s == b
            && let Some(kept) = lister_narrowing::narrow(rows, t.s, set::minus(t.free, *row))
            && extends(rows, kept, q & kept.s)
        {
            return true;
        }
    }
    false
}

// Narrows s and free as `lister_narrowing::narrow` does, and tests exactly what is left. The contract says only that no cover is lost.
// The two come apart, as there.
pub fn narrow_exactly(rows: &[u64], s: u64, free: u64) -> Option<Tight>
    ensures { Tightened rows.now s free result }
{
    let t = lister_narrowing::narrow(rows, s, free)?;
    extends(rows, t, t.s).then_some(t)
}
