// Sets that show that a set is not listed: they cost less where it is favoured, with its members at their low ends and all others at their
// high ones.
ghost use Rattle.std.specs.Prelude.{◌≡◌, true, false, ◌≤◌, ◌<◌, length};
ghost use Rattle.cheapest_bounds.specs.Costs.{cost_of};
ghost use Rattle.cheapest_bounds.specs.Units.{CommonUnit};
ghost use Rattle.cheapest.specs.Optimum.{Below};
ghost use Rattle.ranges.specs.Listed.{Needless};
ghost use Rattle.ranges.specs.Rivals.{RowsMet, Contest, Rival, Undercuts, Recalled, KnownListed, NoDearer, Decided, NoneListed};

use crate::market::Market;
use crate::weights;
use bits::set;
use cheapest::{limited, search};
use cheapest_bounds::costs;
use cheapest_bounds::costs::Incumbent;
use rows::{covering, keeping};

// What s costs by the low or the high ends.
fn cost(ends: &[u16], s: u64) -> u64
    requires { length ends.now ≤ 64 }
    ensures value { result ≡ cost_of ends.now s }
    ensures small { result < 4194305 }
{
    costs::total(ends, s)
}

// Puts the rows that s meets in front of out; returns how many.
fn met(rows: &[u64], s: u64, out: &mut [u64]) -> usize
    requires { length rows.now ≤ length out.old }
    ensures { RowsMet rows.now s (length out.old) result out.new }
{
    keeping::put(rows, |row| (row & s != 0).then_some(row), out)
}

// A cover within free that costs less than limit by the weights w, with its cost: the cheapest where full, else the first that is found.
// (A yes or no and no closure: both ways promise the same, and a closure would have to carry that promise.)
fn hunt(market: &Market, w: &[u16], free: u64, limit: u64, full: bool) -> Option<Incumbent>
    requires common_unit { CommonUnit w.now market.now.unit }
    requires few { length w.now ≤ 64 }
    requires limit_bound { limit ≤ 4194305 }
    ensures { Below market.now.rows.now w.now 0 free limit result }
{
    if !full {
        return limited::below(market.rows, w, market.unit, 0, free, 0, limit);
    }
    let bar = Incumbent {
        cost: limit,
        set: 0,
    };
    let best = search::value(market.rows, w, market.unit, 0, free, 0, bar);
    if best.cost < limit {
        return Some(best);
    }
    None
}

// A cover that costs less than s where s is favoured; full asks for the cheapest of them.
fn contest(market: &Market, s: u64, full: bool) -> Option<u64>
    ensures { let m = market.now in Contest m.rows.now m.low.now m.high.now s result }
{
    let limit = cost(market.low, s);
    let free = market.all();
    let w = weights::mixed(market.low, market.high, s, free);
    let best = hunt(market, &w, free, limit, full)?;
    Some(best.set)
}

// The same over the rows that s meets, of which there are at most N.
fn contest_met<const N: usize>(market: &Market, s: u64, full: bool) -> Option<u64>
    requires room { length market.now.rows.now ≤ N }
    requires small { N ≤ 2048 }
    ensures { let m = market.now in Rival m.rows.now m.low.now m.high.now s result }
{
    let mut out: [u64; N] = [0; N];
    let n = met(market.rows, s, &mut out);
    contest(&market.over(&out[..n]), s, full)
}

// A set that meets all rows that s meets and costs less than s where s is favoured; full asks for the cheapest of them.
pub fn rival(market: &Market, s: u64, full: bool) -> Option<u64>
    ensures { let m = market.now in Rival m.rows.now m.low.now m.high.now s result }
{
    if cost(market.low, s) == 0 {
        return None;
    }
    if market.rows.len() <= 64 {
        contest_met::<64>(market, s, full)
    } else {
        contest_met::<2048>(market, s, full)
    }
}

// Whether t costs less than x, whatever the weights: what t has and x has not costs less at its high ends than what x has and t has not at
// its low ones.
fn undercuts(market: &Market, t: u64, x: u64) -> bool
    ensures { result ≡ true → Undercuts market.now.low.now market.now.high.now t x }
{
    cost(market.high, set::minus(t, x)) < cost(market.low, set::minus(x, t))
}

// A cover among the notes that costs less than x, whatever the weights.
fn recall(market: &Market, notes: &[u64], x: u64) -> Option<u64>
    ensures { let m = market.now in Recalled m.rows.now m.low.now m.high.now x result }
{
    let all = market.all();
    for note in notes {
        let t = *note & all;
        if undercuts(market, t, x) && covering::covers(market.rows, t) {
            return Some(t);
        }
    }
    None
}

// Whether x costs no more than the known set, whatever the weights: what x has and that has not costs at its high ends no more than what
// that has and x has not at its low ones.
fn no_dearer(market: &Market, x: u64, known: Option<u64>) -> bool
    ensures { result ≡ true → NoDearer market.now.low.now market.now.high.now x known }
{
    match known {
        Some(t) => cost(market.high, set::minus(x, t)) <= cost(market.low, set::minus(t, x)),
        None => false,
    }
}

// A set that shows that x, an irredundant cover, is not listed; nothing only where it is. known is a listed set, where any is known.
pub fn judge(market: &Market, known: Option<u64>, notes: &[u64], x: u64) -> Option<u64>
    requires { let m = market.now in KnownListed m.rows.now m.low.now m.high.now known }
    ensures { let m = market.now in Decided m.rows.now m.low.now m.high.now x result }
{
    if no_dearer(market, x, known) {
        return None;
    }
    // No `or_else`: a proof learns nothing of what a closure that holds market returns.
    match recall(market, notes, x) {
        Some(t) => Some(t),
        None => rival(market, x, true),
    }
}

// The candidates outside t that stand in no row without a member of t.
fn needless(rows: &[u64], t: u64) -> u64
    ensures { Needless rows.now t result }
{
    let mut acc = set::minus(u64::MAX, t);
    for row in rows {
        if *row & t == 0 {
            acc = set::minus(acc, *row);
        }
    }
    acc
}

// True only where no listed set lies between s and s | free. t may be any set. With t at its high ends, what it makes needless at its low ones,
// and all else free of charge, a listed set costs no more than t.
pub fn refuted(market: &Market, s: u64, free: u64, t: u64) -> bool
    ensures { let m = market.now in result ≡ true → NoneListed m.rows.now m.low.now m.high.now s free }
{
    let some = t & market.all();
    let w = weights::mixed(market.high, market.low, some, needless(market.rows, some));
    let limit = cost(market.high, some) + 1;
    let paid = costs::total(&w, s);
    limit <= paid || limited::below(market.rows, &w, market.unit, s, free, paid, limit).is_none()
}
