// A lower bound for the cost of a cover: rows charge their members. Each row takes the same amount from what is left of the cost of each of
// its members, so a cover pays each row at least once, and what is left on its members is still to be paid.
ghost use Rattle.std.specs.Prelude.{◌≡◌, ◌≤◌, length};
ghost use Rattle.cheapest_bounds.specs.Costs.{Floor};
ghost use Rattle.cheapest_bounds.specs.Ascent.{Charged, Paid, Raised, SameCosts, Dual, Trimmed, Affordable};

use crate::costs;
use bits::set;

// What the rows have taken in all, and what is left of the cost of each candidate.
#[derive(Clone, Copy)]
pub struct Duals {
    pub sum: u64,
    pub left: [u16; 64],
}

// Takes y from what is left of each member of x.
fn charge(left: &mut [u16], x: u64, y: u64)
    requires left_len { length left.old ≡ 64 }
    requires floor { Floor left.old x y }
    ensures { Charged x y left.old left.new }
{
    let y16 = y as u16; // fits: a floor is no more than a cost
    for m in set::members(x) {
        left[set::index(m)] -= y16;
    }
}

// One row charges its members as much as each of them has left, or half of that, rounded up; returns the amount. A row with more than
// most members takes nothing. How much a row takes is left open, here and below: a cover costs that much whatever it is.
fn pay(x: u64, most: u32, half: bool, left: &mut [u16]) -> u64
    requires { length left.old ≡ 64 }
    ensures { Paid x left.old left.new result }
{
    if x == 0 || most < x.count_ones() {
        return 0;
    }
    let all = costs::floor(left, x);
    if all == 0 {
        return 0;
    }
    let y = if half { all - all / 2 } else { all };
    charge(left, x, y);
    y
}

// Each row charges its members in turn; returns the sum.
fn raise(rows: &[u64], most: u32, half: bool, left: &mut [u16]) -> u64
    requires { length left.old ≡ 64 }
    ensures { Raised rows.now left.old left.new result }
{
    let mut sum = 0;
    for row in rows {
        sum += pay(*row, most, half, left);
    }
    sum
}

// The costs, and 0 behind them. (`library` has the like of bytes: one for both would have to say what the zero of a type is.)
fn padded(costs: &[u16]) -> [u16; 64]
    requires { length costs.now ≤ 64 }
    ensures { SameCosts costs.now result }
{
    let mut left = [0; 64];
    left[..costs.len()].copy_from_slice(costs);
    left
}

// The rows' charges: small rows first, each taking half of what it could, so that the rows that share its members get something too; then
// what is left.
fn ascent(rows: &[u64], costs: &[u16]) -> Duals
    requires { length costs.now ≤ 64 }
    ensures { Dual rows.now costs.now result }
{
    let mut left = padded(costs);
    let two = raise(rows, 2, true, &mut left);
    let three = raise(rows, 3, true, &mut left);
    let four = raise(rows, 4, true, &mut left);
    let six = raise(rows, 6, true, &mut left);
    let some = raise(rows, 64, true, &mut left);
    let rest = raise(rows, 64, false, &mut left);
    Duals {
        sum: two + three + four + six + some + rest,
        left,
    }
}

// The members of free that have less than spare left; that no other one is kept is left open.
fn trim(left: &[u16], free: u64, spare: u64) -> u64
    ensures { Trimmed left.now free spare result }
{
    let mut kept = free;
    for m in set::members(free) {
        if spare <= costs::price(left, m) {
            kept = set::minus(kept, m);
        }
    }
    kept
}

// The members of free that a set can have which meets the rows and costs less than spare, and maybe others: the contract leaves open how
// many. With few rows all are kept: charging them costs more time than it saves.
pub fn affordable(rows: &[u64], costs: &[u16], free: u64, spare: u64) -> u64
    requires { length costs.now ≤ 64 }
    ensures { Affordable rows.now costs.now free spare result }
{
    if rows.len() <= 16 {
        return free;
    }
    let duals = ascent(rows, costs);
    if spare <= duals.sum {
        return 0;
    }
    trim(&duals.left, free, spare - duals.sum)
}
