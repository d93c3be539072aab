// The refusals that a command's operands can meet, each tested in the paper's order. A test takes what it reads of the record.
ghost use Rattle.std.specs.Prelude.{◌≡◌, ◌≤◌, not, ◌&&◌, [], ◌∷◌};
ghost use Rattle.model.specs.Ranges.{between};
ghost use Rattle.model.specs.Reasons.{told};
ghost use Rattle.model.specs.Refusals.{bad_row, bad_range, dear, first_of, refuse, size};
ghost use Rattle.problem.specs.Refusing.{is_taken, row_refusals, TermRefusal, BlockRefusal};

use crate::Settings;
use bits::byte;
use model::reason::Reason;
use model::{Block, Prices, Term};
use table::{blocks, terms};

// Whether k is 1 to 8.
pub fn is_size(k: u8) -> bool
    ensures { result ≡ size k }
{
    1 <= k && k <= 8
}

// I: 6.
pub fn init_refusal(n: u8, m: u8) -> Result<(), Reason>
    ensures { told result ≡ first_of (refuse 6 (not (size n && size m)) ∷ []) }
{
    if is_size(n) && is_size(m) {
        return Ok(());
    }
    Err(Reason::WrongSizes)
}

// W: 16.
pub fn prices_refusal(w: Prices) -> Result<(), Reason>
    ensures { told result ≡ first_of (refuse 16 (dear w) ∷ []) }
{
    if 50 < w.term || 50 < w.literal || 50 < w.connection {
        return Err(Reason::WrongPrices);
    }
    Ok(())
}

// A range of G: 19.
pub fn range_refusal(low: u16, high: u16) -> Result<(), Reason>
    ensures { told result ≡ first_of (refuse 19 (bad_range (between low high)) ∷ []) }
{
    if high < low || 850 < high {
        return Err(Reason::MalformedRange);
    }
    Ok(())
}

// Whether on and dc share a bit, or one has bit m or above.
pub fn bad_row(m: u8, on: u8, dc: u8) -> bool
    requires { m ≤ 8 }
    ensures { result ≡ bad_row m on dc }
{
    let top = byte::bound(m);
    0 < on & dc || top <= usize::from(on) || top <= usize::from(dc)
}

// Whether v is no vertex of n inputs, or one that has a row.
#[tactic(auto, unfolding(crate::specs::Refusing::is_taken))]
fn is_taken(n: u8, given: &[u8; 256], v: usize) -> bool
    requires { n ≤ 8 }
    ensures { result ≡ is_taken n given.now v }
{
    byte::bound(n) <= v || 0 < given[v]
}

// A row of R or B: 7, 8. The vertex is a number, for that of a B may be above 255.
pub fn row_refusal(s: Settings, given: &[u8; 256], v: usize, on: u8, dc: u8) -> Result<(), Reason>
    requires { (s.n ≤ 8) × (s.m ≤ 8) }
    ensures { told result ≡ first_of (row_refusals s.n s.m given.now v on dc) }
{
    if is_taken(s.n, given, v) {
        return Err(Reason::WrongVertex);
    }
    if bad_row(s.m, on, dc) {
        return Err(Reason::WrongRow);
    }
    Ok(())
}

// A term of T or of the library call: 9, 10. `may` has what each vertex may drive.
pub fn term_refusal(may: &[u8; 256], n: u8, m: u8, t: Term) -> Result<(), Reason>
    requires { (n ≤ 8) × (m ≤ 8) }
    ensures { TermRefusal may.now n m t (told result) }
{
    if !terms::formed(n, m, t) {
        return Err(Reason::MalformedTerm);
    }
    if !terms::holds_no_off(may, n, t) {
        return Err(Reason::OffCell);
    }
    Ok(())
}

// A block of F: 18, 10. `may` has what each vertex may drive. (Apart from `term_refusal`: crate `table` tests a term and a block in ways of their own.)
pub fn block_refusal(may: &[u8; 256], n: u8, m: u8, b: Block) -> Result<(), Reason>
    requires { (n ≤ 8) × (m ≤ 8) }
    ensures { BlockRefusal may.now n m b (told result) }
{
    if !blocks::formed(n, m, b) {
        return Err(Reason::MalformedBlock);
    }
    if !blocks::holds_no_off(may, n, b) {
        return Err(Reason::OffCell);
    }
    Ok(())
}
