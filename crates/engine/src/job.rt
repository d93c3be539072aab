// A whole job.
ghost use Rattle.std.specs.Prelude.{◌≡◌, ◌+◌, ◌*◌, ◌^◌, ◌≤◌, IfSome, length, []};
ghost use Rattle.model.specs.Commands.{kind_of};
ghost use Rattle.incidence.specs.Stored.{BlocksAt};
ghost use Rattle.problem.specs.Problems.{Sized};
ghost use Rattle.engine.specs.Jobs.{ended_with, EndsAs, Refreshed};

use crate::{row_block, step};
use codec::kinds;
use model::reason::Reason;
use problem::matrix::Matrix;
use problem::{Problem, matrix};

// How a job ended: its number, its offset, how many answer bytes it wrote, and the record that its last command left. (A number and no `Reason`:
// the call hands it out, 0 for an accepted job.)
#[derive(Clone, Copy)]
pub struct Ended {
    pub number: u8,
    pub offset: usize,
    pub written: usize,
    pub problem: Problem,
}

impl Ended {
    fn new(number: u8, offset: usize, written: usize, problem: Problem) -> Self
        ensures { result ≡ ended_with number offset written problem }
    {
        Ended {
            number,
            offset,
            written,
            problem,
        }
    }
}

// number × 2^32 + offset × 2^16 + written.
pub fn pack(number: u8, offset: usize, written: usize) -> u64
    requires { (offset ≤ 32768) × (written ≤ 32768) }
    ensures { result ≡ number * 2 ^ 32 + offset * 2 ^ 16 + written }
{
    u64::from(number) * 4294967296 + offset as u64 * 65536 + written as u64
}

// The covering matrix that the command of byte b looks at, where it is a query: that of the query right before it, else one made anew.
fn refresh(
    p: Problem,
    held: &[u64; 256],
    b: u8,
    kept: Option<Matrix>,
    rows: &mut [u64],
) -> Option<Matrix>
    requires sized { Sized p }
    requires rows_len { (length rows.old ≡ 2048) × IfSome kept (λ m. m.count ≤ 2048) }
    ensures { Refreshed p held.now (kind_of b) kept rows.old rows.new result }
{
    if !kinds::is_query(b) {
        return None;
    }
    match kept {
        Some(m) => Some(m),
        None => Some(matrix::prepare(p, held, rows)),
    }
}

// The commands one by one, but the rows behind I and W in one go, until one is refused, E is answered or the job's bytes end. Each command has
// its own width, so no range steps through the job. The covering matrix is kept from query to query. `held` has the sets of the blocks, at
// first of none. p is set right behind the step: so the compiler copies the record once, and not twice.
pub fn run(job: &[u8], answers: &mut [u8], held: &mut [u64; 256]) -> Ended
    requires job_len_bound { (length job.now ≤ 32768) × (length answers.old ≤ 32768) }
    requires blocks_at { BlocksAt [] held.old }
    ensures { EndsAs job.now answers.old answers.new held.new result }
{
    let mut p = problem::empty();
    let mut rows = [0u64; 2048];
    let mut kept: Option<Matrix> = None;
    let mut at: usize = 0;
    let mut written: usize = 0;
    while at < job.len() {
        kept = refresh(p, held, job[at], kept, &mut rows);
        let m = kept.unwrap_or(Matrix {
            count: 0,
            covered: false,
        });
        let found = &rows[..m.count];
        let free = &mut answers[written..];
        let e = match step::step(p, held, found, m.covered, job, at, free) {
            Ok(e) => e,
            Err(reason) => return Ended::new(reason.number(), at, written, p),
        };
        p = e.problem;
        written += e.written;
        if kinds::is_end(job[at]) {
            return Ended::new(0, at + 1, written, p);
        }
        at = at + 1 + kinds::width_of(job[at]);
        if row_block::starts(p.place, job, at) {
            let block = row_block::read_rows(p, job, at);
            p = block.problem;
            at = block.at;
            kept = None;
        }
    }
    Ended::new(Reason::NoEnd.number(), at, written, p)
}
