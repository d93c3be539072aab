// The R and B commands of a job, which stand in one block right behind I and W.
//
// `step` takes any command, and copies the whole record for it. Here the record is copied once for all the rows that are accepted; the
// command behind them, a refused R or B too, is left to `step`.
ghost use Rattle.std.specs.Prelude.{◌≡◌, ◌≤◌, T, length};
ghost use Rattle.model.specs.Commands as model;
ghost use Rattle.problem.specs.Problems.{Reached};
ghost use Rattle.engine.specs.RowBlocks.{RowAt, place_behind, ReadsInto, ReadsRows};

use model::place::Place;
use problem::{Problem, Settings, TableRows, refusals};

// The problem behind a block, and where the block ends.
#[derive(Clone, Copy)]
pub struct Block {
    pub problem: Problem,
    pub at: usize,
}

// Whether a block starts at `at`: I or W came last, and the byte is that of an R or a B. Only a yes is promised to mean something: a no
// leaves the command to `step`.
pub fn starts(place: u8, job: &[u8], at: usize) -> bool
    ensures { T result → (model.begun ≤ place) × (place ≤ model.in_prices) }
{
    Place::Begun.number() <= place
        && place <= Place::InPrices.number()
        && at < job.len()
        && matches!(job[at], 0x52 | 0x42)
}

// The place behind a block from `at` to `end`: where it has no row, the one before it.
fn place_behind(at: usize, end: usize, place: u8) -> u8
    ensures { result ≡ place_behind at end place }
{
    if at < end {
        return Place::AmongRows.number();
    }
    place
}

// Whether an R stands at `at` that is accepted. Here too a no only leaves the command to `step`.
fn is_accepted(s: Settings, given: &[u8; 256], job: &[u8], at: usize) -> bool
    requires n_bound { (s.n ≤ 8) × (s.m ≤ 8) }
    requires at_in_bounds { at ≤ length job.now }
    ensures { T result → RowAt s given.now job.now at }
{
    if job.len() - at < 4 || job[at] != 0x52 {
        return false;
    }
    let v = usize::from(job[at + 1]);
    refusals::row_refusal(s, given, v, job[at + 2], job[at + 3]).is_ok()
}

// Reads the accepted R commands from `at` on into the rows, and returns where they end.
fn read_ones(s: Settings, rows: &mut TableRows, job: &[u8], at: usize) -> usize
    requires n_bound { (s.n ≤ 8) × (s.m ≤ 8) }
    requires at_in_bounds { at ≤ length job.now }
    ensures { ReadsInto s job.now at rows.old result rows.new }
{
    let mut i = at;
    while is_accepted(s, &rows.given, job, i) {
        let v = usize::from(job[i + 1]);
        rows.on[v] = job[i + 2];
        rows.dc[v] = job[i + 3];
        rows.given[v] = 1;
        i += 4;
    }
    i
}

// The same for B commands. (Two loops, and no closures for what they test and put: those would need all that stands here in their contracts.)
fn read_eights(s: Settings, rows: &mut TableRows, job: &[u8], at: usize) -> usize
    requires n_bound { (s.n ≤ 8) × (s.m ≤ 8) }
    requires at_in_bounds { at ≤ length job.now }
    ensures { ReadsInto s job.now at rows.old result rows.new }
{
    let mut i = at;
    while eight_rows::is_accepted(s, &rows.given, job, i) {
        eight_rows::put(rows, job, i + 1);
        i += 18;
    }
    i
}

// The accepted R and B commands from `at` on, in turn, until neither is accepted.
pub fn read_rows(p: Problem, job: &[u8], at: usize) -> Block
    requires reached { Reached p }
    requires begun_le_place { (model.begun ≤ p.place) × (p.place ≤ model.in_prices) × (at ≤ length job.now) }
    ensures { ReadsRows p job.now at result.problem result.at }
{
    let s = p.settings;
    let mut rows = p.rows;
    let mut i = read_ones(s, &mut rows, job, at);
    let mut end = read_eights(s, &mut rows, job, i);
    while i < end {
        i = read_ones(s, &mut rows, job, end);
        end = read_eights(s, &mut rows, job, i);
    }
    let place = place_behind(at, end, p.place);
    let problem = Problem { place, rows, ..p };
    Block { problem, at: end }
}
