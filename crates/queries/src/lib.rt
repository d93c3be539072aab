// L, V and C over the rows of a problem, and N, which multiplies those of its cells.
#![tactic(auto)]

ghost use Rattle.std.specs.Prelude.{◌≡◌, ℕ, ◌≤◌, get_or, length};
ghost use Rattle.rows.specs.Covers.{row_covers};
ghost use Rattle.ranges.specs.Listed.{row_possibles};
ghost use Rattle.answers.specs.Writers.{Replied};
ghost use Rattle.problem.specs.Problems.{Reached, ReachedWith};
ghost use Rattle.commands.specs.Effects.{outcome, replied_as, page_bytes, possible_bytes, HandlesL, HandlesV, HandlesC, HandlesN};

use answers::writers;
use cheapest::search;
use commands::Effect;
use lister::cursor;
use model::reason::Reason;
use problem::{Problem, products};

// What a query comes to, by its reply: so many bytes, or that its answer is too long.
fn replied(p: Problem, reply: Result<usize, Reason>) -> Result<Effect, Reason>
    ensures { outcome p result ≡ replied_as p reply }
{
    Ok(Effect {
        written: reply?,
        problem: problem::after_query(p),
    })
}

// Fills the row with the covers from `start` on, and answers with them.
fn page_into(
    rows: &[u64],
    n: u64,
    start: u64,
    row: &mut [u64],
    free: &mut [u8],
) -> Result<usize, Reason>
    requires { (n ≤ 64) × (length row.old ≤ 255) }
    ensures { Replied (page_bytes (row_covers n rows.now) start (length row.old)) free.old free.new result }
{
    let page = cursor::fill(rows, n, start, row);
    let sets = &row[..page.count];
    writers::put_page(free, sets, page.more)
}

// L: the sets for a row of `count` entries from `start` on. `rows` and `covered` are the covering matrix.
pub fn list(
    p: Problem,
    rows: &[u64],
    covered: bool,
    start: u64,
    count: u8,
    free: &mut [u8],
) -> Result<Effect, Reason>
    requires { Reached p }
    ensures { HandlesL p rows.now covered start count free.old free.new (outcome p result) }
{
    if !covered {
        return Err(Reason::UnheldCell);
    }
    let mut row = [0; 255];
    let page = &mut row[..usize::from(count)];
    let reply = page_into(rows, p.candidates.count as u64, start, page, free);
    replied(p, reply)
}

// Fills the row with the covers from `start` on that cost no more than any other for some weights between
// the ends, and answers with them.
// Kept beside `page_into`: the walk and the writing of a page are one function each below; over both, the contract would have two closures.
fn possible_into(
    rows: &[u64],
    lows: &[u16],
    highs: &[u16],
    start: u64,
    row: &mut [u64],
    free: &mut [u8],
) -> Result<usize, Reason>
    requires rows_len_bound { (length rows.now ≤ 2048) × (length row.old ≤ 255) }
    requires lows_len_bound { (length lows.now ≤ 64) × (length highs.now ≡ length lows.now) }
    requires by_index { (i : ℕ) → get_or lows.now i 0 ≤ get_or highs.now i 0 }
    ensures { Replied (possible_bytes (row_possibles (length lows.now) rows.now lows.now highs.now) start (length row.old)) free.old free.new result }
{
    let page = ranges::cursor::fill(rows, lows, highs, start, row);
    let sets = &row[..page.count];
    writers::put_possible_page(free, sets, page.more)
}

// V: the sets for a row of `count` entries from `start` on, by the ranges of the record. `rows` and `covered` are the covering matrix.
// Kept beside `list`: it reads the ends of the ranges, and a contract over a closure that fills the row and answers would be longer than the
// few lines that both have.
pub fn possible(
    p: Problem,
    rows: &[u64],
    covered: bool,
    start: u64,
    count: u8,
    free: &mut [u8],
) -> Result<Effect, Reason>
    requires reached { Reached p }
    requires rows_len_bound { length rows.now ≤ 2048 }
    ensures { HandlesV p rows.now covered start count free.old free.new (outcome p result) }
{
    if !covered {
        return Err(Reason::UnheldCell);
    }
    let n = p.candidates.count;
    let lows = &p.candidates.lows[..n];
    let highs = &p.candidates.highs[..n];
    let mut row = [0; 255];
    let sets = &mut row[..usize::from(count)];
    let reply = possible_into(rows, lows, highs, start, sets, free);
    replied(p, reply)
}

// C: the cheapest cover, by the weights of the record. `rows` and `covered` are the covering matrix.
pub fn least_cost(
    p: Problem,
    rows: &[u64],
    covered: bool,
    free: &mut [u8],
) -> Result<Effect, Reason>
    requires reached { Reached p }
    requires rows_len_bound { length rows.now ≤ 2048 }
    ensures { HandlesC p rows.now covered free.old free.new (outcome p result) }
{
    if !covered {
        return Err(Reason::UnheldCell);
    }
    match search::cheapest(rows, &p.candidates.weights[..p.candidates.count]) {
        None => Err(Reason::UnheldCell), // not met: each cell is held
        Some(best) => replied(p, writers::put_cheapest(free, best.cost, best.set)),
    }
}

// N: all irredundant covers in one go. `held` has the sets of the blocks; `covered` is that of the covering matrix, whose rows are not those of
// the cells.
pub fn multiply(
    p: Problem,
    held: &[u64; 256],
    covered: bool,
    free: &mut [u8],
) -> Result<Effect, Reason>
    requires { ReachedWith p held.now }
    ensures { HandlesN p held.now covered free.old free.new (outcome p result) }
{
    if !covered {
        return Err(Reason::UnheldCell);
    }
    let mut first = [0u64; 1024];
    let mut second = [0u64; 1024];
    let (row, told) = products::multiply(p, held, &mut first, &mut second);
    match told {
        Ok(count) => replied(p, writers::put_products(free, &row[..count])),
        Err(_) => Err(Reason::TooManyProducts),
    }
}
