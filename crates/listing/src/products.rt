// The multiplication on the paper's cases and on tables with 1,024 products and more, and which row it hands back.
ghost use Rattle.std.specs.Prelude.{◌≤◌};

use crate::print_first;
use model::reason::Reason;
use std::io;

// What no set of these cases is.
fn mark() -> u64 {
    0xffff_ffff_ffff_ffff
}

// Marks a row, so that its owner sees which one it is.
fn mark_row(row: &mut [u64]) {
    if let Some(entry) = row.first_mut() {
        *entry = mark();
    }
}

// How many sets, and which, where they are few: none after a refusal.
fn print_front(rt: &impl Print, sets: &[u64], told: Result<usize, Reason>) -> io::Result<()> {
    let count = told.unwrap_or(0);
    print!(rt; "{count} sets ")?;
    if count <= 8 {
        print_first(rt, sets, count)?;
    }
    Ok(())
}

// The refusal, if there is one, and which row was handed back.
fn print_told(rt: &impl Print, told: Result<usize, Reason>, is_first: bool) -> io::Result<()> {
    if let Err(reason) = told {
        let number = reason.number();
        print!(rt; "refused {number} ")?;
    }
    if is_first {
        println!(rt; "in the first row")
    } else {
        println!(rt; "in the second row")
    }
}

// The multiplication with two rows of 1,024 entries.
fn show(
    rt: &impl Print,
    name: &[u8],
    n: u8,
    m: u8,
    on: &[u8],
    dc: &[u8],
    terms: &[u32],
) -> io::Result<()> {
    rt.write_all(name)?;
    let mut first = [0u64; 1024];
    let mut second = [0u64; 1024];
    let (row, told) = library::multiply_covers(n, m, on, dc, terms, &mut first, &mut second);
    print_front(rt, row, told)?;
    mark_row(row);
    print_told(rt, told, first[0] == mark())
}

// By the terms of the paper's job.
fn show_job(rt: &impl Print, name: &[u8], on: &[u8], dc: &[u8]) -> io::Result<()> {
    show(
        rt,
        name,
        2,
        2,
        on,
        dc,
        &[
            0x010001u32,
            0x030103,
            0x020101,
            0x020202,
            0x030203,
            0x010002,
        ],
    )
}

// So many wanted vertices of 4 inputs, each with two equal terms that hold no other: the products double at each.
fn show_pairs(rt: &impl Print, name: &[u8], vertices: usize) -> io::Result<()>
    requires { vertices ≤ 11 }
{
    let mut on = [0u8; 16];
    let dc = [0u8; 16];
    let mut terms = [0u32; 22];
    for v in 0..vertices {
        let word = 0x01000f + 256 * (v as u32);
        on[v] = 1;
        terms[2 * v] = word;
        terms[2 * v + 1] = word;
    }
    show(rt, name, 4, 1, &on, &dc, &terms[..2 * vertices])
}

// A lent row of 1,023 or 1,025 entries.
fn show_lengths(
    rt: &impl Print,
    name: &[u8],
    first: &mut [u64],
    second: &mut [u64],
) -> io::Result<()> {
    let (row, told) = library::multiply_covers(1, 1, &[0u8, 0], &[0u8, 0], &[], first, second);
    rt.write_all(name)?;
    print_front(rt, row, told)?;
    if let Err(reason) = told {
        let number = reason.number();
        print!(rt; "refused {number} ")?;
    }
    println!(rt; "")
}

// Each row too short, and too long.
fn show_refused(rt: &impl Print) -> io::Result<()> {
    let mut short = [0u64; 1023];
    let mut right = [0u64; 1024];
    let mut long = [0u64; 1025];
    show_lengths(rt, b"a first row too short: ", &mut short, &mut right)?;
    show_lengths(rt, b"a second row too short: ", &mut right, &mut short)?;
    show_lengths(rt, b"a first row too long: ", &mut long, &mut right)?;
    show_lengths(rt, b"a second row too long: ", &mut right, &mut long)
}

pub fn show_all(rt: &impl Print) -> io::Result<()> {
    show_job(
        rt,
        b"case a, multiplied: ",
        &[0u8, 1, 3, 2],
        &[1u8, 2, 0, 0],
    )?;
    show(
        rt,
        b"case c, multiplied: ",
        2,
        2,
        &[0u8, 1, 3, 2],
        &[1u8, 2, 0, 0],
        &[
            0x010001u32,
            0x020101,
            0x010002,
            0x020202,
            0x030103,
            0x030203,
        ],
    )?;
    show_job(
        rt,
        b"case d, multiplied: ",
        &[1u8, 3, 3, 2],
        &[0u8, 0, 0, 0],
    )?;
    show(rt, b"case e, multiplied: ", 1, 1, &[0u8, 0], &[0u8, 0], &[])?;
    show(
        rt,
        b"case f, multiplied: ",
        1,
        1,
        &[1u8, 1],
        &[0u8, 0],
        &[0x010000u32],
    )?;
    show(
        rt,
        b"case g, multiplied: ",
        1,
        1,
        &[1u8, 1],
        &[0u8, 0],
        &[0x010000u32, 0x010000],
    )?;
    show(rt, b"case h, multiplied: ", 1, 1, &[1u8, 1], &[0u8, 0], &[])?;
    show_pairs(rt, b"one cell of two, multiplied: ", 1)?;
    show_pairs(rt, b"nine cells of two: ", 9)?;
    show_pairs(rt, b"ten cells of two: ", 10)?;
    show_pairs(rt, b"eleven cells of two: ", 11)?;
    show_refused(rt)
}
