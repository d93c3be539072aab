// The rows of the covering matrix: for each on cell the set of the candidates that hold it.
//
// The candidates are `terms`, at most 64; a set is a number with bit k for candidate k. Those in `blocks` are blocks: `terms` has their
// outputs alone, and `held` at each vertex the set of those that have it. The row of cell (v, j) is the set of the candidates at v, met with
// the set of those that drive j: the first is found once for each vertex, the second once for each table, so that a table of 256 vertices
// costs 256 passes over the candidates and not 2,048.
//
// `terms`, `blocks` and `held` come one by one, and so do the bytes and their n and m: a caller has them in several records, and a struct
// would be built for one call and taken apart at once.
ghost use Rattle.std.specs.Prelude.{◌≡◌, ◌≤◌, ◌<◌, length};
ghost use Rattle.std.specs.Fn.{FnReturnsAt};
ghost use Rattle.model.specs.Sets.{row_of};
ghost use Rattle.incidence.specs.Rows.{has_vertex, drives_output, Passing, CandidatesFor, Driving, Appends, cell_row, vertex_rows, AllRows};

use bits::{byte, set};
use model::Term;

// The set of the candidates that pass the test, read from the last one down: the bit of each comes in at the bottom, which takes fewer
// instructions than to shift it to its place.
fn passing<F: Fn(&Term) -> bool>(terms: &[Term], test: F) -> u64
    requires few { length terms.now ≤ 64 }
    requires callable { F.IsAlwaysCallable test }
    ensures { Passing (FnReturnsAt F.Fn test) terms.now result }
{
    let mut found: u64 = 0;
    for k in (0..terms.len()).rev() {
        found = found * 2 + u64::from(test(&terms[k]));
    }
    found
}

// The terms whose cube contains vertex v.
fn cubes_at(terms: &[Term], v: u8) -> u64
    requires { length terms.now ≤ 64 }
    ensures { result ≡ row_of has_vertex terms.now v }
{
    passing(terms, |t| t.in_cube(v))
}

// The candidates at vertex v, for the rows of its on cells: the terms whose cube contains it, and the blocks that have it. A vertex without
// an on cell is not looked at.
fn candidates_for(on: u8, terms: &[Term], blocks: u64, held: &[u64; 256], v: u8) -> u64
    requires { length terms.now ≤ 64 }
    ensures { CandidatesFor on terms.now blocks held.now v result }
{
    if on == 0 {
        return 0;
    }
    set::minus(cubes_at(terms, v), blocks) | held[usize::from(v)]
}

// The candidates that drive output j.
pub fn driving(terms: &[Term], j: u8) -> u64
    requires { (length terms.now ≤ 64) × (j < 8) }
    ensures { result ≡ row_of drives_output terms.now j }
{
    passing(terms, |t| byte::has(t.outputs, j))
}

// For each of the m outputs the candidates that drive it.
fn driving_all(terms: &[Term], m: u8) -> [u64; 8]
    requires { (length terms.now ≤ 64) × (m ≤ 8) }
    ensures { Driving terms.now m result }
{
    let mut sets = [0u64; 8];
    for j in 0..m {
        sets[usize::from(j)] = driving(terms, j);
    }
    sets
}

// Puts the row of one cell at `at`, where the cell is on, and returns the index behind it; on is the byte of its vertex.
fn put_cell(on: u8, row: u64, j: u8, at: usize, out: &mut [u64]) -> usize
    requires { (j < 8) × (at < 2048) × (2048 ≤ length out.old) }
    ensures { Appends out.old at (cell_row on row j) 1 out.new result }
{
    if byte::has(on, j) {
        out[at] = row;
        return at + 1;
    }
    at
}

// Puts the rows of one vertex from `at` on, by rising output, and returns the index behind them; here has the candidates at the vertex.
fn put_vertex(on: u8, here: u64, driving: &[u64; 8], m: u8, at: usize, out: &mut [u64]) -> usize
    requires { (m ≤ 8) × (at ≤ 2040) × (2048 ≤ length out.old) }
    ensures { Appends out.old at (vertex_rows on here driving.now m) m out.new result }
{
    let mut end = at;
    for j in 0..m {
        let row = here & driving[usize::from(j)];
        end = put_cell(on, row, j, end, out);
    }
    end
}

// Puts the rows of all on cells into `out`, by rising vertex, then output, and returns how many; the rest of `out` stays.
pub fn rows(
    on: &[u8; 256],
    terms: &[Term],
    blocks: u64,
    held: &[u64; 256],
    n: u8,
    m: u8,
    out: &mut [u64],
) -> usize
    requires { (length terms.now ≤ 64) × (n ≤ 8) × (m ≤ 8) × (2048 ≤ length out.old) }
    ensures { AllRows on.now n m terms.now blocks held.now out.old out.new result }
{
    let driving = driving_all(terms, m);
    let mut end: usize = 0;
    for v in 0..byte::bound(n) {
        let here = candidates_for(on[v], terms, blocks, held, v as u8);
        end = put_vertex(on[v], here, &driving, m, end, out);
    }
    end
}
