// The library calls: the irredundant covers of a table and a list of terms, a row at a time, or all of them by multiplication.
//
// `list_covers` is the call for Rattle; its contract says that answer and row are those of `listCovers` in crate `model`. `multiply_covers` is
// K8's; its contract says so of `multiplyCovers`, and which of the two lent rows is handed back. By K10 they take terms alone: `held`, which has
// the blocks at each vertex, is lent empty.
// The tests come in the calls' own order: 6, 8 by rising vertex, 11, then 9 and 10 term by term, then 12, and 17 of the multiplication.
#![tactic(auto)]

ghost use Rattle.std.specs.Prelude.{◌≡◌, map, ◌≤◌, length};
ghost use Rattle.model.specs.Reasons.{told};
ghost use Rattle.model.specs.Library.{unpack, list_covers, right_room, multiply_covers};
ghost use Rattle.bits.specs.Lists as lists;
ghost use Rattle.problem.specs.Problems.{Sized, Holds};
ghost use Rattle.library.specs.Multiplying.{HandedBack, RoomRefusal};
ghost use Rattle.library.specs.Library.{Answers, called_table, right_sizes, some_bad, TableRefusal, problem_of, Padded, WordRefusal, WordsRefusal, RowFilled};

use bits::byte;
use lister::cursor;
use lister::cursor::PageFill;
use model::Term;
use model::place::Place;
use model::reason::Reason;
use problem::{Candidates, Problem, Settings, TableRows, matrix, products, refusals, weights};
use table::cells;

// Whether n and m are 1 to 8 and both rows are 2^n long: 6 does not apply.
fn sizes_right(n: u8, m: u8, on: usize, dc: usize) -> bool
    ensures { result ≡ right_sizes n m on dc }
{
    refusals::is_size(n) && refusals::is_size(m) && on == byte::bound(n) && dc == byte::bound(n)
}

// Whether a vertex has a bad row, by rising vertex as far as the first: 8 applies.
fn some_bad(m: u8, on: &[u8], dc: &[u8]) -> bool
    requires { (m ≤ 8) × (length dc.now ≡ length on.now) }
    ensures { result ≡ some_bad m on.now dc.now }
{
    for (v, row) in on.iter().enumerate() {
        if refusals::bad_row(m, *row, dc[v]) {
            return true;
        }
    }
    false
}

// 6, 8 or 11 for a call with `count` terms.
fn table_refusal(n: u8, m: u8, on: &[u8], dc: &[u8], count: usize) -> Result<(), Reason>
    ensures { TableRefusal (called_table n m on.now dc.now) count (told result) }
{
    if !sizes_right(n, m, on.len(), dc.len()) {
        return Err(Reason::WrongSizes);
    }
    if some_bad(m, on, dc) {
        return Err(Reason::WrongRow);
    }
    if 65 <= count {
        return Err(Reason::TooMany);
    }
    Ok(())
}

// A row as the problem keeps it: zeros behind it. (`cheapest_bounds::ascent` has the like of costs: one for both would have to say what the
// zero of a type is.)
fn padded(row: &[u8]) -> [u8; 256]
    requires { length row.now ≤ 256 }
    ensures { Padded row.now result }
{
    let mut all = [0; 256];
    all[..row.len()].copy_from_slice(row);
    all
}

// The term of a word, care + 256 × value + 65,536 × outputs. The top byte is left out. (No `From<u32>`: that would belong in crate `model`,
// which knows nothing of a call's words in its code.)
fn unpacked(w: u32) -> Term
    ensures { result ≡ unpack w }
{
    let [care, value, outputs, _] = w.to_le_bytes();
    Term {
        care,
        value,
        outputs,
    }
}

// The terms of the words.
fn terms_of(words: &[u32]) -> [Term; 64]
    requires { length words.now ≤ 64 }
    ensures { lists.Filled 64 (map unpack words.now) result (length words.now) }
{
    let mut all = [Term::default(); 64];
    for (i, w) in words.iter().enumerate() {
        all[i] = unpacked(*w);
    }
    all
}

// The problem of a call, behind an L.
fn problem_of(n: u8, m: u8, on: &[u8], dc: &[u8], words: &[u32]) -> Problem
    requires { (length on.now ≤ 256) × (length dc.now ≤ 256) × (length words.now ≤ 64) }
    ensures { Holds result (problem_of (called_table n m on.now dc.now) words.now) }
{
    let terms = terms_of(words);
    let count = words.len();
    let prices = problem::usual_prices();
    let weights = weights::weights(prices, &terms[..count]);
    Problem {
        place: Place::Queried.number(),
        settings: Settings { n, m, prices },
        rows: TableRows {
            on: padded(on),
            dc: padded(dc),
            given: [0; 256],
        },
        candidates: Candidates {
            terms,
            weights,
            lows: weights,
            highs: weights,
            blocks: 0,
            count,
        },
    }
}

// 9 or 10 for one word. A top byte is malformed too.
fn word_refusal(may: &[u8; 256], n: u8, m: u8, w: u32) -> Result<(), Reason>
    requires { (n ≤ 8) × (m ≤ 8) }
    ensures { WordRefusal may.now n m w (told result) }
{
    if 0xff_ffff < w {
        return Err(Reason::MalformedTerm);
    }
    refusals::term_refusal(may, n, m, unpacked(w))
}

// 9 or 10, term by term as far as the first that is refused.
fn words_refusal(p: Problem, words: &[u32]) -> Result<(), Reason>
    requires { Sized p }
    ensures { WordsRefusal p words.now (told result) }
{
    let may = cells::allowed(&p.rows.on, &p.rows.dc);
    for w in words {
        word_refusal(&may, p.settings.n, p.settings.m, *w)?;
    }
    Ok(())
}

// 12, or the covers of a problem from `start` on, in the row.
fn fill_row(p: Problem, start: u64, row: &mut [u64]) -> Result<PageFill, Reason>
    requires { Sized p }
    ensures { RowFilled p start row.old row.new result }
{
    let held = [0; 256];
    let mut rows = [0; 2048];
    let m = matrix::prepare(p, &held, &mut rows);
    if m.covered {
        let count = m.count;
        return Ok(cursor::fill(&rows[..count], p.candidates.count as u64, start, row));
    }
    Err(Reason::UnheldCell)
}

// Puts the irredundant covers at or above `start` into the row, rising, as many as fit; the rest of the row stays. The terms are
// 32-bit numbers, care + 256 × value + 65,536 × outputs. It tells how many sets were put and whether one stands above those. A refused call
// changes no entry.
pub fn list_covers(
    n: u8,
    m: u8,
    on: &[u8],
    dc: &[u8],
    terms: &[u32],
    start: u64,
    row: &mut [u64],
) -> Result<PageFill, Reason>
    ensures { Answers (list_covers (record { n = n; m = m; on = on.now; dc = dc.now }) terms.now start row.old) result row.new }
{
    table_refusal(n, m, on, dc, terms.len())?;
    let p = problem_of(n, m, on, dc, terms);
    words_refusal(p, terms)?;
    fill_row(p, start, row)
}

// Whether both lent rows have 1,024 entries.
fn room_right(first: usize, second: usize) -> bool
    ensures { result ≡ right_room first second }
{
    first == 1024 && second == 1024
}

// 6, 8 or 11 for a multiplication with `count` terms and lent rows of these lengths.
fn room_refusal(
    n: u8,
    m: u8,
    on: &[u8],
    dc: &[u8],
    count: usize,
    first: usize,
    second: usize,
) -> Result<(), Reason>
    ensures { RoomRefusal (called_table n m on.now dc.now) count first second (told result) }
{
    if !room_right(first, second) {
        return Err(Reason::WrongSizes);
    }
    table_refusal(n, m, on, dc, count)
}

// All irredundant covers at once, by multiplication. The two lent rows take turns at each wanted cell; the one that holds the last products is
// handed back, with the products first in it, rising, and their count. After a refusal, which is told, it is the first row, and no
// product is counted. Every other entry of both rows may have changed.
pub fn multiply_covers<'a>(
    n: u8,
    m: u8,
    on: &[u8],
    dc: &[u8],
    terms: &[u32],
    first: &'a mut [u64],
    second: &'a mut [u64],
) -> (&'a mut [u64], Result<usize, Reason>)
    ensures { HandedBack (multiply_covers (record { n = n; m = m; on = on.now; dc = dc.now }) terms.now (length first.old) (length second.old)) first.entry second.entry result.0 result.1 }
{
    if let Err(reason) = room_refusal(n, m, on, dc, terms.len(), first.len(), second.len()) {
        return (first, Err(reason));
    }
    let p = problem_of(n, m, on, dc, terms);
    if let Err(reason) = words_refusal(p, terms) {
        return (first, Err(reason));
    }
    let held = [0; 256];
    if !matrix::is_covered(p, &held) {
        return (first, Err(Reason::UnheldCell));
    }
    let (row, told) = products::multiply(p, &held, first, second);
    match told {
        Ok(count) => (row, Ok(count)),
        Err(_) => (row, Err(Reason::TooManyProducts)),
    }
}
