// One command: tested, answered, applied.
//
// Each function here and in crate `queries`, which has L, V, C and N, handles one kind of command behind the tests of 3, 4 and 5. A refusal leaves the
// free part alone, and the caller has the record still. `held` has the sets of the blocks, which stand beside the record: only F and D change them.
#![tactic(auto)]

ghost use Rattle.std.specs.Prelude.{◌≡◌, ◌+◌, ◌≤◌, ◌<◌, length, drop};
ghost use Rattle.model.specs.Commands as model;
ghost use Rattle.model.specs.Commands.{rows_of_b};
ghost use Rattle.problem.specs.declared.Problem.{Problem as AnyProblem};
ghost use Rattle.problem.specs.Problems.{Sized, Reached};
ghost use Rattle.commands.specs.Effects.{outcome, HandlesI, HandlesW, HandlesR, HandlesB, HandlesTerm, HandlesF, HandlesP, HandlesD, HandlesG, HandlesE};

use answers::writers;
use incidence::blocks;
use model::place::Place;
use model::reason::Reason;
use model::{Block, Prices, Term};
use primes::prime_list;
use problem::{Problem, refusals};
use table::cells;

// What a command comes to that is not refused: how many answer bytes it wrote, and the problem after it.
#[derive(Clone, Copy)]
pub struct Effect {
    pub written: usize,
    pub problem: Problem,
}

// I with its operands, in any problem: it looks at none.
pub fn init(n: u8, m: u8) -> Result<Effect, Reason>
    ensures { (p : AnyProblem) → HandlesI p n m (outcome p result) }
{
    refusals::init_refusal(n, m)?;
    Ok(Effect {
        written: 0,
        problem: problem::started(n, m, Place::Begun.number()),
    })
}

// W with its prices.
pub fn prices(p: Problem, w: Prices) -> Result<Effect, Reason>
    ensures { HandlesW p w (outcome p result) }
{
    refusals::prices_refusal(w)?;
    Ok(Effect {
        written: 0,
        problem: problem::with_prices(p, w),
    })
}

// A row of R or B.
pub fn row(p: Problem, v: usize, on: u8, dc: u8) -> Result<Effect, Reason>
    requires { Sized p }
    ensures { HandlesR p v on dc (outcome p result) }
{
    let mut rows = p.rows;
    refusals::row_refusal(p.settings, &rows.given, v, on, dc)?;
    rows.on[v] = on;
    rows.dc[v] = dc;
    rows.given[v] = 1;
    Ok(Effect {
        written: 0,
        problem: problem::with_rows(p, rows),
    })
}

// B with its operands at `at`: eight rows, one by one. (`engine::row_block` reads those that are accepted in one go.)
pub fn eight_rows(p: Problem, job: &[u8], at: usize) -> Result<Effect, Reason>
    requires reached { Reached p }
    requires begun_le_place { (model.begun ≤ p.place) × (p.place ≤ model.among_rows) }
    requires at_in_bounds { at + 17 ≤ length job.now }
    ensures { HandlesB p (rows_of_b (drop at job.now)) (outcome p result) }
{
    let first = usize::from(job[at]);
    let mut q = p;
    for i in 0..8 {
        q = row(q, first + i, job[at + 1 + 2 * i], job[at + 2 + 2 * i])?.problem;
    }
    Ok(Effect {
        written: 0,
        problem: q,
    })
}

// T or A with its term: 11 comes behind 9 and 10.
pub fn term(p: Problem, t: Term) -> Result<Effect, Reason>
    requires { Sized p }
    ensures { HandlesTerm p t (outcome p result) }
{
    let may = cells::allowed(&p.rows.on, &p.rows.dc);
    refusals::term_refusal(&may, p.settings.n, p.settings.m, t)?;
    if 64 <= p.candidates.count {
        return Err(Reason::TooMany);
    }
    Ok(Effect {
        written: 0,
        problem: problem::with_term(p, t),
    })
}

// F with its block: 11 comes behind 18 and 10.
pub fn block(p: Problem, held: &mut [u64; 256], b: Block) -> Result<Effect, Reason>
    requires { Sized p }
    ensures { HandlesF p b held.old held.new (outcome p result) }
{
    let may = cells::allowed(&p.rows.on, &p.rows.dc);
    refusals::block_refusal(&may, p.settings.n, p.settings.m, b)?;
    let count = p.candidates.count;
    if 64 <= count {
        return Err(Reason::TooMany);
    }
    blocks::add(held, count as u64, b);
    Ok(Effect {
        written: 0,
        problem: problem::with_block(p, b),
    })
}

// P: the primes as answer and as candidates.
pub fn primes(p: Problem, free: &mut [u8]) -> Result<Effect, Reason>
    requires { Reached p }
    ensures { HandlesP p free.old free.new (outcome p result) }
{
    let may = cells::allowed(&p.rows.on, &p.rows.dc);
    let list = prime_list::primes(&may, p.settings.n);
    if list.full {
        return Err(Reason::TooMany);
    }
    let written = writers::put_primes(free, &list.terms[..list.count])?;
    Ok(Effect {
        written,
        problem: problem::with_primes(p, list),
    })
}

// D with the number of a candidate.
pub fn remove(p: Problem, held: &mut [u64; 256], k: u8) -> Result<Effect, Reason>
    requires { Sized p }
    ensures { HandlesD p k held.old held.new (outcome p result) }
{
    let i = usize::from(k);
    if p.candidates.count <= i {
        return Err(Reason::WrongCandidate);
    }
    blocks::take_out(held, p.candidates.blocks, i as u64);
    Ok(Effect {
        written: 0,
        problem: problem::without_candidate(p, i),
    })
}

// G with the number of a candidate and the ends of its range: 19 comes behind 15.
pub fn range(p: Problem, k: u8, low: u16, high: u16) -> Result<Effect, Reason>
    requires { Sized p }
    ensures { HandlesG p k low high (outcome p result) }
{
    let entry = usize::from(k);
    if p.candidates.count <= entry {
        return Err(Reason::WrongCandidate);
    }
    refusals::range_refusal(low, high)?;
    Ok(Effect {
        written: 0,
        problem: problem::with_range(p, entry, low, high),
    })
}

// E, with `rest` bytes behind it.
pub fn end(p: Problem, rest: usize, free: &mut [u8]) -> Result<Effect, Reason>
    ensures { HandlesE p rest free.old free.new (outcome p result) }
{
    if 0 < rest {
        return Err(Reason::BytesAfterEnd);
    }
    Ok(Effect {
        written: writers::put_end(free)?,
        problem: p,
    })
}
