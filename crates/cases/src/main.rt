// Runs the paper's marked cases and run cases, one with blocks and one with ranges of prices, as jobs in files, and prints what the engine returns and writes.
#![tactic(auto)]

use std::io::Read;
use std::rt::Files;
use std::{fs, io};

// Runs the job and prints its result; of more than 1,000 answer bytes only how many.
fn run(rt: &impl Print, job: &[u8]) -> io::Result<()> {
    let mut answers = [0u8; 32768];
    let result = engine::cover_job(job, &mut answers);
    report::print(rt, result, &answers[..1000])
}

// Runs the job of a file. Of a file that cannot be opened, standard error tells why.
fn show(rt: &(impl Files + Print + Eprint + Alloc), path: &str) -> io::Result<()> {
    let file = match fs::open(rt, path) {
        Ok(file) => file,
        Err(error) => return eprintln!(rt; "{path}: {error}"),
    };
    // One byte more than the longest job, so that a longer one is seen.
    let mut job = Vec::new(rt.alloc());
    file.take(32769).read_to_end(&mut job)?;
    print!(rt; "{path}: ")?;
    run(rt, &job)
}

fn main(rt: HostRuntime) -> io::Result<()> {
    for path in [
        "case_a_b.job",
        "case_c.job",
        "case_d.job",
        "case_e.job",
        "case_f.job",
        "case_g.job",
        "case_h.job",
        "parity_7.job",
        "parity_8.job",
        "ready_made.job",
        "price_ranges.job",
        "no_bytes.job",
        "longest.job",
        "too_long.job",
    ] {
        show(&rt, path)?;
    }
    Ok(())
}
