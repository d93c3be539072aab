// The problem so far: one record by value with its settings, its rows and its candidates. The vertices of its blocks stand beside it, in sets
// that are lent and not copied with it (`held`, crate `incidence`).
//
// `refusals` has the refusals that operands can meet in it, `weights` what a term costs, `cells` the rows of its cells, `matrix`
// its covering matrix, `products` the multiplication of its cells.
// proofs/Keeping says that the record goes on holding the problem of the definitions.
#![tactic(auto)]

ghost use Rattle.std.specs.Prelude.{◌≡◌, ◌≤◌, ◌<◌, length, max};
ghost use Rattle.model.specs.Candidates.{usual};
ghost use Rattle.model.specs.Commands as model;
ghost use Rattle.problem.specs.Problems.{no_problem, started_with, at_place, with_prices, with_rows, with_candidates, entry_put, term_put, block_put, range_put, entries_without, candidate_taken, WithPrimes};

use bits::set;
use model::place::Place;
use model::{Block, Prices, Term};
use primes::prime_list::PrimeList;

pub mod cells;
pub mod matrix;
pub mod products;
pub mod refusals;
pub mod weights;

// What I sets: n inputs, m outputs; and the prices, which W sets.
#[derive(Clone, Copy)]
pub struct Settings {
    pub n: u8,
    pub m: u8,
    pub prices: Prices,
}

// The rows by vertex, with `given` at 1 for each vertex that has one.
#[derive(Clone, Copy)]
pub struct TableRows {
    pub on: [u8; 256],
    pub dc: [u8; 256],
    pub given: [u8; 256],
}

// The candidates: the first `count` terms, beside each its weight and the ends of the weight's range, and the set of those that are blocks. The
// term of a block has its outputs alone. (Fixed arrays, since no heap is used here, and one for each field: the weights, and the ends of the
// ranges, are lent to a search as slices of their own.)
#[derive(Clone, Copy)]
pub struct Candidates {
    pub terms: [Term; 64],
    pub weights: [u16; 64],
    pub lows: [u16; 64],
    pub highs: [u16; 64],
    pub blocks: u64,
    pub count: usize,
}

// The record, with its place in the job: the number of one, since `started` takes any number (`Place` names those that come).
#[derive(Clone, Copy)]
pub struct Problem {
    pub place: u8,
    pub settings: Settings,
    pub rows: TableRows,
    pub candidates: Candidates,
}

// What a job starts with.
pub fn empty() -> Problem
    ensures { result ≡ no_problem }
{
    started(0, 0, Place::Start.number())
}

// The prices without a W.
pub fn usual_prices() -> Prices
    ensures { result ≡ usual }
{
    Prices {
        term: 1,
        literal: 1,
        connection: 0,
    }
}

// n inputs and m outputs, with no row and no candidate.
pub fn started(n: u8, m: u8, place: u8) -> Problem
    ensures { result ≡ started_with n m place }
{
    Problem {
        place,
        settings: Settings {
            n,
            m,
            prices: usual_prices(),
        },
        rows: TableRows {
            on: [0; 256],
            dc: [0; 256],
            given: [0; 256],
        },
        candidates: Candidates {
            terms: [Term::default(); 64],
            weights: [0; 64],
            lows: [0; 64],
            highs: [0; 64],
            blocks: 0,
            count: 0,
        },
    }
}

// With these prices: what W leaves.
pub fn with_prices(mut p: Problem, w: Prices) -> Problem
    ensures { result ≡ at_place model.in_prices (with_prices w p) }
{
    p.settings.prices = w;
    p.place = Place::InPrices.number();
    p
}

// With these rows: what a row of R or B leaves. (So the rows of p are not copied.)
pub fn with_rows(p: Problem, rows: TableRows) -> Problem
    ensures { result ≡ at_place model.among_rows (with_rows rows p) }
{
    Problem {
        place: Place::AmongRows.number(),
        rows,
        ..p
    }
}

// The place of a candidate, or the later one that the job is at.
fn candidate_place(place: u8) -> u8
    ensures { result ≡ max place model.in_candidates }
{
    place.max(Place::InCandidates.number())
}

impl Candidates {
    // Puts an entry behind the others, with its weight, which both ends of its range equal.
    #[tactic(auto, unfolding(crate::specs::Problems::entry_put))]
    fn put(&mut self, t: Term, weight: u16)
        requires { self.old.count < 64 }
        ensures { self.new ≡ entry_put self.old t weight self.old.blocks }
    {
        let i = self.count;
        self.terms[i] = t;
        self.weights[i] = weight;
        self.lows[i] = weight;
        self.highs[i] = weight;
        self.count = i + 1;
    }
}

// With one candidate more, a term and what it costs: what T and A leave.
pub fn with_term(mut p: Problem, t: Term) -> Problem
    requires { p.candidates.count < 64 }
    ensures { result ≡ at_place (max p.place model.in_candidates) (with_candidates (term_put p.settings.prices p.candidates t) p) }
{
    let weight = weights::weight(p.settings.prices, t);
    p.candidates.put(t, weight);
    p.place = candidate_place(p.place);
    p
}

// With one candidate more, a block and its own weight: what F leaves.
pub fn with_block(mut p: Problem, b: Block) -> Problem
    requires { p.candidates.count < 64 }
    ensures { result ≡ at_place (max p.place model.in_candidates) (with_candidates (block_put p.candidates b) p) }
{
    let entry = Term {
        outputs: b.outputs,
        ..Term::default()
    };
    p.candidates.blocks |= set::power(p.candidates.count as u64);
    p.candidates.put(entry, b.weight);
    p.place = candidate_place(p.place);
    p
}

// Takes entry k out of the first `count`: those above it move down by one.
fn take_out<T: Copy>(entries: &mut [T], count: usize, k: usize)
    requires { (k < count) × (count ≤ length entries.old) }
    ensures { entries.new ≡ entries_without k count entries.old }
{
    entries.copy_within(k + 1..count, k);
}

// Without candidate k: those above move down by one, each with its weight and its range. What D leaves.
pub fn without_candidate(mut p: Problem, k: usize) -> Problem
    requires { (k < p.candidates.count) × (p.candidates.count ≤ 64) }
    ensures { result ≡ with_candidates (candidate_taken p.candidates k) p }
{
    let count = p.candidates.count;
    take_out(&mut p.candidates.terms, count, k);
    take_out(&mut p.candidates.weights, count, k);
    take_out(&mut p.candidates.lows, count, k);
    take_out(&mut p.candidates.highs, count, k);
    p.candidates.blocks = set::removed(p.candidates.blocks, k as u64);
    p.candidates.count = count - 1;
    p
}

// With another range for candidate k: what G leaves.
pub fn with_range(mut p: Problem, k: usize, low: u16, high: u16) -> Problem
    requires { k < 64 }
    ensures { result ≡ at_place model.queried (with_candidates (range_put p.candidates k low high) p) }
{
    p.candidates.lows[k] = low;
    p.candidates.highs[k] = high;
    p.place = Place::Queried.number();
    p
}

// With the primes as its candidates, and their weights, which both ends of each range equal: what P leaves.
pub fn with_primes(p: Problem, primes: PrimeList) -> Problem
    requires { primes.count ≤ 64 }
    ensures { WithPrimes p primes result }
{
    let weights = weights::weights(p.settings.prices, &primes.terms[..primes.count]);
    Problem {
        place: Place::Queried.number(),
        candidates: Candidates {
            terms: primes.terms,
            weights,
            lows: weights,
            highs: weights,
            blocks: 0,
            count: primes.count,
        },
        ..p
    }
}

// Behind an L, a V, a C or an N.
pub fn after_query(mut p: Problem) -> Problem
    ensures { result ≡ at_place model.queried p }
{
    p.place = Place::Queried.number();
    p
}
