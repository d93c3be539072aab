// Any command of a job.
ghost use Rattle.std.specs.Prelude.{◌≡◌, ◌+◌, ◌≤◌, ◌<◌, get_or, length, take, drop};
ghost use Rattle.model.specs.Commands.{number};
ghost use Rattle.problem.specs.Problems.{ReachedWith};
ghost use Rattle.commands.specs.Effects.{outcome};
ghost use Rattle.engine.specs.Steps.{Steps};

use codec::kinds::Kind;
use codec::{kinds, operands};
use commands::Effect;
use model::reason::Reason;
use problem::Problem;

// Where the page of an L or a V starts, and how many sets it has room for, by the operands at `at`.
fn page_at(job: &[u8], at: usize) -> (u64, u8)
    requires { at + 9 ≤ length job.now }
    ensures { result ≡ (number (take 8 (drop at job.now)), get_or job.now (at + 8) 0) }
{
    (operands::number_at(job, at), job[at + 8])
}

// The command at `at`: tested in the paper's order, then answered into the free part and applied to the record and to `held`, the sets of its
// blocks. `rows` and `covered` are the problem's covering matrix where it is a query.
pub fn step(
    p: Problem,
    held: &mut [u64; 256],
    rows: &[u64],
    covered: bool,
    job: &[u8],
    at: usize,
    free: &mut [u8],
) -> Result<Effect, Reason>
    requires reached_with { ReachedWith p held.old }
    requires at_in_bounds { at < length job.now }
    requires rows_len_bound { length rows.now ≤ 2048 }
    ensures { Steps p held.old held.new rows.now covered job.now at free.old free.new (outcome p result) }
{
    let rest = job.len() - at - 1;
    let k = kinds::early_refusal(job[at], p.place, rest)?;
    match k {
        Kind::I => commands::init(job[at + 1], job[at + 2]),
        Kind::W => commands::prices(p, operands::prices_at(job, at + 1)),
        Kind::R => commands::row(p, usize::from(job[at + 1]), job[at + 2], job[at + 3]),
        Kind::B => commands::eight_rows(p, job, at + 1),
        Kind::T | Kind::A => commands::term(p, operands::term_at(job, at + 1)),
        Kind::F => commands::block(p, held, operands::block_at(job, at + 1)),
        Kind::P => commands::primes(p, free),
        Kind::D => commands::remove(p, held, job[at + 1]),
        Kind::G => commands::range(
            p,
            job[at + 1],
            operands::short_at(job, at + 2),
            operands::short_at(job, at + 4),
        ),
        Kind::L => {
            let (start, count) = page_at(job, at + 1);
            queries::list(p, rows, covered, start, count, free)
        }
        Kind::V => {
            let (start, count) = page_at(job, at + 1);
            queries::possible(p, rows, covered, start, count, free)
        }
        Kind::C => queries::least_cost(p, rows, covered, free),
        Kind::N => queries::multiply(p, held, covered, free),
        Kind::E => commands::end(p, rest, free),
    }
}
