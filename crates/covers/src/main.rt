// Runs the job on standard input, with an answer buffer of 32,768 bytes, and prints its result and its answers.
#![tactic(auto)]

use std::io;
use std::io::Read;

fn main(rt: HostRuntime) -> io::Result<()> {
    // One byte more than the longest job, so that a longer one is seen.
    let mut job = Vec::new(rt.alloc());
    rt.reader().take(32769).read_to_end(&mut job)?;
    let mut answers = [0u8; 32768];
    let result = engine::cover_job(&job, &mut answers);
    report::print(&rt, result, &answers)
}
