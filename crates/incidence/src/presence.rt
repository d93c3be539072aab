// The cover test: document 000's presence function S, to be read beside its formulas (3) and (4).
//
//     document 000              here                                                       specs/Presence of crate `model`
//     points ξ_1 to ξ_K         the wanted cells (v, j), by vertex, then output            the points
//     functions F_1 to F_M      the candidates: F(ξ) is 1 where one holds ξ                `valuesAt`
//     variables σ_1 to σ_M      bit i of the set for candidate i                           `bit`
//     Δ, formula (2)            left out                                                   `delta`
//     summands F σ of (3)       `summands`, `summand_at`, of the blocks `block_summands`   those of `sumUpTo`
//     sum B, formula (3)        `sum_at` of the terms, `block_sum_at` of the blocks        `sum_at`
//     product S, formula (4)    `presence`, at one vertex `product_at`                     `productUpTo`, `presence`
//
// Sums and products are those of truth values; n, m, v and j are paper 01's inputs, outputs, vertex and output.
//
// Formula (3) is added up in two parts: the functions that are terms, and those that are blocks, all at a time, for `held` has the set of the
// blocks at each vertex.
//
// Where it differs: paper 01 has "A wanted cell keeps its sum". The document needs Δ where all functions are 0 because φ is; here such cells
// are no points, for free and off cells are none. Kept, it would also drop a wanted cell that all candidates hold, or that none holds. And
// the document's functions represent φ, formula (1), so that S is 1 at the set of all; here S at that set tells whether they do: 0 is
// refusal 12.
//
// Case f: one input, one output, both cells wanted, one candidate, which holds both.
//
//                                  set 0             set 1
//                         Δ    sum   product     sum   product
//     before any point                  1                 1
//     point (0, 0)        1     0       0         1       1
//     point (1, 0)        1     0       0         1       1
//
// Set 1 is a cover, set 0 is none. The one function agrees with itself at both points: with Δ both sums would be 1 at set 0 too, and the
// empty set would be listed as a cover (proved: `marked-walks`, `marked-delta` of crate `model`).
ghost use Rattle.std.specs.Prelude.{◌≡◌, cond, ◌≤◌, ◌<◌, ltb, length};
ghost use Rattle.std.specs.Int.Bits.{bit_and};
ghost use Rattle.model.specs.Table.{cell, in_cube};
ghost use Rattle.incidence.specs.Presence.{SummandsOf, TellsSum, BlockSummands, AtVertex, TellsPresence};

use crate::rows;
use bits::{byte, set};
use model::Term;

// The functions that are terms, each times its variable, in columns: place i has the cube of candidate i, and its outputs where bit i of the
// set is 1. A block, which is left out of that set, has no outputs at its place, nor have the places behind the last candidate. These add
// nothing to a sum, so that a sum is over 64 places, many at a time: that is why there are three arrays and not one of terms.
#[derive(Clone, Copy)]
pub struct Columns {
    pub care: [u8; 64],
    pub value: [u8; 64],
    pub outputs: [u8; 64],
}

// The summands of formula (3) that are terms: each function times its variable.
fn summands(candidates: &[Term], set: u64) -> Columns
    requires { length candidates.now ≤ 64 }
    ensures { SummandsOf candidates.now set result.care result.value result.outputs }
{
    let mut care = [0u8; 64];
    let mut value = [0u8; 64];
    let mut outputs = [0u8; 64];
    for (i, f) in candidates.iter().enumerate() {
        care[i] = f.care;
        value[i] = f.value;
        outputs[i] = if set::has(set, i as u64) {
            f.outputs
        } else {
            0
        };
    }
    Columns {
        care,
        value,
        outputs,
    }
}

// One summand at the points of vertex v, bit j for output j.
fn summand_at(f: Term, v: u8) -> u8
    ensures { result ≡ cond (in_cube f.care f.value v) f.outputs 0 }
{
    if f.in_cube(v) { f.outputs } else { 0 }
}

// Formula (3) of the terms: the sum over the functions, each times its variable, at the point (v, j): bit j of their outputs added up.
fn sum_at(f: &Columns, v: u8, j: u8) -> bool
    requires { j < 8 }
    ensures { TellsSum f.now.care f.now.value f.now.outputs (cell v j) result }
{
    let mut sum: u8 = 0;
    for i in 0..64 {
        let place = Term {
            care: f.care[i],
            value: f.value[i],
            outputs: f.outputs[i],
        };
        sum |= summand_at(place, v);
    }
    byte::has(sum, j)
}

// The summands of formula (3) that are blocks, all at a time: for each output the blocks of the set that drive it. A set without a block
// has none, and costs no pass over the candidates.
fn block_summands(candidates: &[Term], set: u64, m: u8) -> [u64; 8]
    requires { (length candidates.now ≤ 64) × (m ≤ 8) }
    ensures { BlockSummands candidates.now set m result }
{
    let mut sets = [0u64; 8];
    if set == 0 {
        return sets;
    }
    for j in 0..m {
        sets[usize::from(j)] = rows::driving(candidates, j) & set;
    }
    sets
}

// Formula (3) of the blocks at the point (v, j): 1 where one of the set that drives j has v. held has the blocks at v.
fn block_sum_at(held: u64, driving: u64) -> bool
    ensures { result ≡ ltb 0 (bit_and held driving) }
{
    0 < held & driving
}

// Formula (4), vertex v: `product`, which is that of the sums over the points before the vertex, times the sums over its own points. After
// each point it stands at the product of the sums up to that point, `StandsAt` of this crate's specs/Presence, where it did before the first: so
// says `AtVertex` there, the invariant of the loop.
// A vertex without an on cell has no point, and is not looked at.
fn product_at(
    mut product: bool,
    on: u8,
    f: &Columns,
    held: u64,
    driving: &[u64; 8],
    v: u8,
    m: u8,
) -> bool
    requires { m ≤ 8 }
    ensures { AtVertex product on f.now.care f.now.value f.now.outputs held driving.now v m m result }
{
    if on == 0 {
        return product;
    }
    for j in 0..m {
        if byte::has(on, j) {
            product &= sum_at(f, v, j) | block_sum_at(held, driving[usize::from(j)]);
        }
    }
    product
}

// Formula (4): the product of the sums over the points, vertex by vertex.
pub fn presence(
    on: &[u8; 256],
    candidates: &[Term],
    blocks: u64,
    held: &[u64; 256],
    n: u8,
    m: u8,
    set: u64,
) -> bool
    requires { (length candidates.now ≤ 64) × (n ≤ 8) × (m ≤ 8) }
    ensures { TellsPresence on.now n m candidates.now blocks held.now set result }
{
    let f = summands(candidates, set::minus(set, blocks));
    let driving = block_summands(candidates, set & blocks, m);
    let mut product = true;
    for v in 0..byte::bound(n) {
        product = product_at(product, on[v], &f, held[v], &driving, v as u8, m);
    }
    product
}
