// Runs the library calls on the paper's cases and on odd parity of 7 inputs, and prints what they find.
#![tactic(auto)]

ghost use Rattle.std.specs.Prelude.{◌≤◌, length};

use cheapest::search;
use incidence::rows;
use model::Term;
use primes::prime_list;
use std::io;
use table::cells;

mod products;

// The first count of the sets.
fn print_first(rt: &impl Print, sets: &[u64], count: usize) -> io::Result<()> {
    for set in sets.iter().take(count) {
        print!(rt; "{set} ")?;
    }
    Ok(())
}

// The first count of the sets, and whether more stand above.
fn print_sets(rt: &impl Print, sets: &[u64], count: usize, more: bool) -> io::Result<()> {
    print_first(rt, sets, count)?;
    if more {
        print!(rt; "and more")?;
    }
    println!(rt; "")
}

// A page of 8 sets from `start` on, or the refusal.
fn show(
    rt: &impl Print,
    name: &[u8],
    n: u8,
    m: u8,
    on: &[u8],
    dc: &[u8],
    terms: &[u32],
    start: u64,
) -> io::Result<()> {
    rt.write_all(name)?;
    let mut sets = [0u64; 8];
    match library::list_covers(n, m, on, dc, terms, start, &mut sets) {
        Ok(page) => print_sets(rt, &sets, page.count, page.more),
        Err(reason) => {
            let number = reason.number();
            println!(rt; "refused {number} ")
        }
    }
}

// The on bytes of odd parity of 7 inputs.
fn odd_parity() -> [u8; 256] {
    let mut on = [0; 256];
    for v in 0..128 {
        on[v] = (usize::count_ones(v) % 2) as u8;
    }
    on
}

// A term as a word. (No `From<Term>`: crate `model`, where it would stand, knows no words.)
fn word(t: Term) -> u32 {
    u32::from_le_bytes([t.care, t.value, t.outputs, 0])
}

// The terms as words.
fn words(terms: [Term; 64]) -> [u32; 64] {
    let mut all = [0; 64];
    for i in 0..64 {
        all[i] = word(terms[i]);
    }
    all
}

// The cheapest cover of the terms, and its cost. None is a block.
fn show_cheapest(rt: &impl Print, on: &[u8; 256], terms: &[Term]) -> io::Result<()>
    requires { length terms.now ≤ 64 }
{
    let held = [0u64; 256];
    let mut all = [0u64; 2048];
    let k = rows::rows(on, terms, 0, &held, 7, 1, &mut all);
    let weights = problem::weights::weights(problem::usual_prices(), terms);
    if k <= 2048 {
        if let Some(best) = search::cheapest(&all[..k], &weights[..terms.len()]) {
            let set = best.set;
            let cost = best.cost;
            println!(rt; "parity of 7 inputs, cheapest and cost: {set} {cost} ")?;
        }
    }
    Ok(())
}

// Odd parity of 7 inputs: how many primes, the covers by them, the cheapest.
fn show_parity(rt: &impl Print) -> io::Result<()> {
    let on = odd_parity();
    let dc = [0u8; 256];
    let may = cells::allowed(&on, &dc);
    let primes = prime_list::primes(&may, 7);
    let count = primes.count;
    println!(rt; "parity of 7 inputs, primes: {count} ")?;
    let terms = primes.terms;
    let all = words(terms);
    if count <= 64 {
        show(
            rt,
            b"parity of 7 inputs, covers: ",
            7,
            1,
            &on[..128],
            &dc[..128],
            &all[..count],
            0,
        )?;
        show_cheapest(rt, &on, &terms[..count])?;
    }
    Ok(())
}

// A page by the terms of the paper's job, for rows of 2 inputs and 2 outputs.
fn show_job(rt: &impl Print, name: &[u8], on: &[u8], dc: &[u8], start: u64) -> io::Result<()> {
    show(
        rt,
        name,
        2,
        2,
        on,
        dc,
        &[
            0x010001u32,
            0x030103,
            0x020101,
            0x020202,
            0x030203,
            0x010002,
        ],
        start,
    )
}

// Case a, from the start and from a set on.
fn show_pages(rt: &impl Print) -> io::Result<()> {
    show_job(rt, b"case a: ", &[0u8, 1, 3, 2], &[1u8, 2, 0, 0], 0)?;
    show_job(
        rt,
        b"case a from 23 on: ",
        &[0u8, 1, 3, 2],
        &[1u8, 2, 0, 0],
        23,
    )
}

// Cases c and d: the same terms in another order, and another table.
fn show_others(rt: &impl Print) -> io::Result<()> {
    show(
        rt,
        b"case c: ",
        2,
        2,
        &[0u8, 1, 3, 2],
        &[1u8, 2, 0, 0],
        &[
            0x010001u32,
            0x020101,
            0x010002,
            0x020202,
            0x030103,
            0x030203,
        ],
        0,
    )?;
    show_job(rt, b"case d: ", &[1u8, 3, 3, 2], &[0u8, 0, 0, 0], 0)
}

// Cases e to h, of one input and one output.
fn show_small(rt: &impl Print) -> io::Result<()> {
    show(rt, b"case e: ", 1, 1, &[0u8, 0], &[0u8, 0], &[], 0)?;
    show(
        rt,
        b"case f: ",
        1,
        1,
        &[1u8, 1],
        &[0u8, 0],
        &[0x010000u32],
        0,
    )?;
    show(
        rt,
        b"case g: ",
        1,
        1,
        &[1u8, 1],
        &[0u8, 0],
        &[0x010000u32, 0x010000],
        0,
    )?;
    show(rt, b"case h: ", 1, 1, &[1u8, 1], &[0u8, 0], &[], 0)
}

// Calls that are refused before a term is looked at, and for a word's top byte.
fn show_refused(rt: &impl Print) -> io::Result<()> {
    show_job(rt, b"a row too short: ", &[0u8, 1, 3], &[1u8, 2, 0, 0], 0)?;
    show(
        rt,
        b"a top byte: ",
        2,
        2,
        &[0u8, 1, 3, 2],
        &[1u8, 2, 0, 0],
        &[0x1010001u32],
        0,
    )
}

fn main(rt: HostRuntime) -> io::Result<()> {
    show_pages(&rt)?;
    show_others(&rt)?;
    show_small(&rt)?;
    show_refused(&rt)?;
    show_parity(&rt)?;
    products::show_all(&rt)
}
