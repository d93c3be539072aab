// Whether a term is well-formed, and whether it holds an off cell: refusals 9 and 10.
ghost use Rattle.std.specs.Prelude.{◌≤◌};
ghost use Rattle.table.specs.Cubes.{Cube, TellsFormed, TellsNoOff};

use crate::cubes;
use bits::byte;
use model::Term;

// Whether t is well-formed for n inputs and m outputs, with the tests in the order of refusal 9.
#[tactic(auto, unfolding(model::specs::Table::formed))]
pub fn formed(n: u8, m: u8, t: Term) -> bool
    requires { (n ≤ 8) × (m ≤ 8) }
    ensures { TellsFormed n m t result }
{
    usize::from(t.care) < byte::bound(n)
        && byte::within(t.value, t.care)
        && t.outputs != 0
        && usize::from(t.outputs) < byte::bound(m)
}

// Whether a well-formed t holds no off cell, that is, its cube may drive its outputs: else refusal 10 applies.
pub fn holds_no_off(may: &[u8; 256], n: u8, t: Term) -> bool
    requires { Cube n t.care t.value }
    ensures { TellsNoOff may.now n t result }
{
    byte::within(t.outputs, cubes::drives(may, n, t.care, t.value))
}
