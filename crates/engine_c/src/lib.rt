// The engine for C programs: the one function that `include/covers.h` declares. C passes each buffer as a pointer and a length.
#![tactic(auto)]

ghost use Rattle.model.specs.Calls.{Met};
ghost use Rattle.engine.specs.Jobs.{called};

// Runs a job on two byte buffers: returns number × 2^32 + offset × 2^16 + written, and leaves the bytes of the finished answers in front
// of `answers`. Every other byte of `answers` stays as it was.
#[unsafe(no_mangle)]
pub extern "C" fn cover_job(job: &[u8], answers: &mut [u8]) -> u64
    ensures { Met (called job.now answers.old result answers.new) }
{
    engine::cover_job(job, answers)
}
