// The engine: jobs of commands over a problem, and their answers.
//
// `cover_job` is what a C program calls, by way of crate `engine_c`; its contract cites only definitions of crate `model`. `run_job` is the
// same with the record that the job leaves, for the program `dump`. `step` is any command of a job, `row_block` the R and B commands in one
// go, with crate `eight_rows` for a B, `job` goes through them. The calls for Rattle are those of crate `library`.
#![tactic(auto)]

ghost use Rattle.std.specs.Prelude.{◌≡◌, []};
ghost use Rattle.model.specs.Calls.{Met};
ghost use Rattle.incidence.specs.Stored.{BlocksAt};
ghost use Rattle.engine.specs.Jobs.{too_long, EndsAs, called};

use job::Ended;
use model::reason::Reason;

pub mod job;
pub mod row_block;
pub mod step;

// A job that is not run, for it or its buffer is too long: the record is the empty one.
fn too_long() -> Ended
    ensures { result ≡ too_long }
{
    Ended {
        number: Reason::TooLong.number(),
        offset: 0,
        written: 0,
        problem: problem::empty(),
    }
}

// Runs a job as `cover_job` does, and tells the record that its last command left too, with the vertices of its blocks in `held`: sets of
// candidates, at first empty.
pub fn run_job(job: &[u8], answers: &mut [u8], held: &mut [u64; 256]) -> Ended
    requires { BlocksAt [] held.old }
    ensures { EndsAs job.now answers.old answers.new held.new result }
{
    if 32768 < job.len() {
        return too_long();
    }
    if 32768 < answers.len() {
        return too_long();
    }
    job::run(job, answers, held)
}

// Runs a job on two byte buffers: returns number × 2^32 + offset × 2^16 + written, and leaves the bytes of the finished answers in front
// of `answers`. Every other byte of `answers` stays as it was.
pub fn cover_job(job: &[u8], answers: &mut [u8]) -> u64
    ensures { Met (called job.now answers.old result answers.new) }
{
    let mut held = [0u64; 256];
    let e = run_job(job, answers, &mut held);
    job::pack(e.number, e.offset, e.written)
}
