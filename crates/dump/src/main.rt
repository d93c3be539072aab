// Runs the job on standard input as `covers` does, and prints its result and the record that its last command left, in lines like these. A
// refused command leaves the record as it found it; a job that is too long leaves the empty one.
//
//     number 0 offset 113 written 12
//     place 5
//     inputs 2 outputs 2
//     prices 37 23 11
//     row 0 on 00 dc 01
//     candidate 0 care 01 value 00 outputs 01 weight 48 low 40 high 60
//     candidate 2 block outputs 01 vertices 0600000000000000000000000000000000000000000000000000000000000000 weight 850 low 850 high 850
//
// The place is the furthest that came: 0 nothing, 1 I, 2 W, 3 a row, 4 a candidate by T, F or A, 5 a P, L, C, N, G or V. The prices are those of a
// term, a literal and an output connection. A line for each vertex that has a row, and for each candidate, a term or a block, with the weight
// and the ends of its range that stand beside it. The vertices of a block are the 32 bytes of F's operand. Bytes are in hexadecimal, all other numbers in decimal.
//
// No `ensures` here is on what is printed: what stands on standard output is in no contract of `std`. It is asked for by `requires`: the record is
// the job's, a term or a block is the one that the job has there, the weight of a term is what it costs at the record's prices, and the range is the
// candidate's.
#![tactic(auto)]

ghost use Rattle.std.specs.Prelude.{◌≡◌, [], ◌<◌};
ghost use Rattle.model.specs.Ranges.{between};
ghost use Rattle.model.specs.Candidates.{Candidate, term_cost};
ghost use Rattle.incidence.specs.Stored.{BlocksAt};
ghost use Rattle.problem.specs.Problems.{HoldsCands, Holds};
ghost use Rattle.dump.specs.Shown.{left, candidate_at, range_at, vertex_byte, Vertices, ShownAs};

use bits::set;
use model::{Block, Prices, Term};
use problem::{Candidates, Problem, TableRows};
use report::Hex;
use std::io;
use std::io::Read;

// A line for each vertex that has a row.
fn print_rows(rt: &impl Print, rows: TableRows) -> io::Result<()> {
    for v in 0..256 {
        if rows.given[v] != 0 {
            let on = rows.on[v];
            let dc = rows.dc[v];
            println!(rt; "row {v} on {on:02x} dc {dc:02x}")?;
        }
    }
    Ok(())
}

// Candidate i of the record that this job leaves: term t, with its cost at these prices.
fn print_term(
    rt: &impl Print,
    job: &[u8],
    w: Prices,
    i: usize,
    t: Term,
    weight: u16,
) -> io::Result<()>
    requires i_value { candidate_at (left job.now).cands i ≡ Candidate.term t }
    requires weight_value { weight ≡ term_cost w t }
{
    let Term {
        care,
        value,
        outputs,
    } = t;
    print!(rt;
        "candidate {i} care {care:02x} value {value:02x} outputs {outputs:02x} weight {weight}"
    )
}

// Byte j of the vertices of block i, read from its last vertex down.
fn vertex_byte(held: &[u64; 256], i: u64, j: usize) -> u8
    requires { (i < 64) × (j < 32) }
    ensures { result ≡ vertex_byte held.now i j }
{
    let mut byte = 0;
    for k in (0..8).rev() {
        byte = byte * 2 + u8::from(set::has(held[8 * j + k], i));
    }
    byte
}

// The vertices of block i.
fn vertices(held: &[u64; 256], i: u64) -> [u8; 32]
    requires { i < 64 }
    ensures { Vertices held.now i 32 result }
{
    let mut bytes = [0; 32];
    for j in 0..32 {
        bytes[j] = vertex_byte(held, i, j);
    }
    bytes
}

// Candidate i of the record that this job leaves: block b.
fn print_block(rt: &impl Print, job: &[u8], i: usize, b: Block) -> io::Result<()>
    requires { ShownAs (left job.now).cands i b }
{
    let Block {
        outputs,
        vertices,
        weight,
    } = b;
    let vertices = Hex(&vertices);
    print!(rt; "candidate {i} block outputs {outputs:02x} vertices {vertices} weight {weight}")
}

// The range of candidate i of the record that this job leaves, and the end of its line.
fn print_range(rt: &impl Print, job: &[u8], i: usize, low: u16, high: u16) -> io::Result<()>
    requires { range_at (left job.now).ranges i ≡ between low high }
{
    println!(rt; " low {low} high {high}")
}

// A line for candidate i.
fn print_one(
    rt: &impl Print,
    job: &[u8],
    w: Prices,
    candidates: Candidates,
    held: &[u64; 256],
    i: usize,
) -> io::Result<()>
    requires i_lt_count { i < candidates.count }
    requires holds_cands { HoldsCands w candidates (left job.now).cands (left job.now).weights (left job.now).ranges }
    requires blocks_at { BlocksAt (left job.now).cands held.now }
{
    let t = candidates.terms[i];
    let weight = candidates.weights[i];
    if set::has(candidates.blocks, i as u64) {
        let vertices = vertices(held, i as u64);
        print_block(
            rt,
            job,
            i,
            Block {
                outputs: t.outputs,
                vertices,
                weight,
            },
        )?;
    } else {
        print_term(rt, job, w, i, t, weight)?;
    }
    print_range(rt, job, i, candidates.lows[i], candidates.highs[i])
}

// A line for each candidate of the record that this job leaves.
fn print_candidates(
    rt: &impl Print,
    job: &[u8],
    w: Prices,
    candidates: Candidates,
    held: &[u64; 256],
) -> io::Result<()>
    requires holds_cands { HoldsCands w candidates (left job.now).cands (left job.now).weights (left job.now).ranges }
    requires blocks_at { BlocksAt (left job.now).cands held.now }
{
    for i in 0..candidates.count {
        print_one(rt, job, w, candidates, held, i)?;
    }
    Ok(())
}

fn print_prices(rt: &impl Print, w: Prices) -> io::Result<()> {
    let Prices {
        term,
        literal,
        connection,
    } = w;
    println!(rt; "prices {term} {literal} {connection}")
}

// The whole record, which is the one that this job leaves; `held` has the vertices of its blocks.
fn print_record(rt: &impl Print, job: &[u8], p: Problem, held: &[u64; 256]) -> io::Result<()>
    requires holds { Holds p (left job.now) }
    requires blocks_at { BlocksAt (left job.now).cands held.now }
{
    let place = p.place;
    let n = p.settings.n;
    let m = p.settings.m;
    println!(rt; "place {place}")?;
    println!(rt; "inputs {n} outputs {m}")?;
    print_prices(rt, p.settings.prices)?;
    print_rows(rt, p.rows)?;
    print_candidates(rt, job, p.settings.prices, p.candidates, held)
}

// The sets by vertex of no block.
fn no_blocks() -> [u64; 256]
    ensures { BlocksAt [] result }
{
    [0; 256]
}

fn main(rt: HostRuntime) -> io::Result<()> {
    // One byte more than the longest job, so that a longer one is seen.
    let mut job = Vec::new(rt.alloc());
    rt.reader().take(32769).read_to_end(&mut job)?;
    let mut answers = [0u8; 32768];
    let mut held = no_blocks();
    let e = engine::run_job(&job, &mut answers, &mut held);
    let number = e.number;
    let offset = e.offset;
    let written = e.written;
    println!(rt; "number {number} offset {offset} written {written}")?;
    print_record(&rt, &job, e.problem, &held)
}
