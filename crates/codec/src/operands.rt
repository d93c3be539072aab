// Operands of more than one byte.
ghost use Rattle.std.specs.Prelude.{◌≡◌, [], ◌∷◌, ◌+◌, ◌≤◌, get_or, length, take, drop};
ghost use Rattle.model.specs.Table.{term};
ghost use Rattle.model.specs.Candidates.{prices};
ghost use Rattle.model.specs.Commands.{number, block_of_f};

use model::{Block, Prices, Term};

// The 8 bytes at `at` as a number, low byte first.
pub fn number_at(job: &[u8], at: usize) -> u64
    requires { at + 8 ≤ length job.now }
    ensures { result ≡ number (take 8 (drop at job.now)) }
{
    let mut bytes = [0; 8];
    bytes.copy_from_slice(&job[at..at + 8]);
    u64::from_le_bytes(bytes)
}

// The 3 bytes at `at` as prices.
pub fn prices_at(job: &[u8], at: usize) -> Prices
    requires { at + 3 ≤ length job.now }
    ensures { result ≡ prices (get_or job.now at 0) (get_or job.now (at + 1) 0) (get_or job.now (at + 2) 0) }
{
    Prices {
        term: job[at],
        literal: job[at + 1],
        connection: job[at + 2],
    }
}

// The 3 bytes at `at` as a term.
pub fn term_at(job: &[u8], at: usize) -> Term
    requires { at + 3 ≤ length job.now }
    ensures { result ≡ term (get_or job.now at 0) (get_or job.now (at + 1) 0) (get_or job.now (at + 2) 0) }
{
    Term {
        care: job[at],
        value: job[at + 1],
        outputs: job[at + 2],
    }
}

// The 2 bytes at `at` as a number, low byte first.
pub fn short_at(job: &[u8], at: usize) -> u16
    requires { at + 2 ≤ length job.now }
    ensures { result ≡ number (get_or job.now at 0 ∷ get_or job.now (at + 1) 0 ∷ []) }
{
    u16::from_le_bytes([job[at], job[at + 1]])
}

// The 35 bytes at `at` as a block: its outputs, its vertices and its weight.
pub fn block_at(job: &[u8], at: usize) -> Block
    requires { at + 35 ≤ length job.now }
    ensures { result ≡ block_of_f (drop at job.now) }
{
    let mut vertices = [0; 32];
    vertices.copy_from_slice(&job[at + 1..at + 33]);
    Block {
        outputs: job[at],
        vertices,
        weight: short_at(job, at + 33),
    }
}
