// Which cubes are primes: a prime drives all that its cube may drive, and can drop no literal.
ghost use Rattle.std.specs.Prelude.{◌≤◌};
ghost use Rattle.bits.specs.Bits.{Single};
ghost use Rattle.table.specs.Cubes.{Cube};
ghost use Rattle.primes.specs.Literals.{TellsDroppable, SomeDroppable, CubePrime};

use crate::cube_table::CubeTable;
use bits::byte;

// Whether the input of weight `bit` is a literal of the cube, and the cube without it may still drive the outputs.
fn droppable(table: &CubeTable, care: usize, value: usize, outputs: u8, bit: usize) -> bool
    requires cube { Cube 8 care value }
    requires single { Single bit × (bit ≤ care) }
    ensures { TellsDroppable table.now.outputs care value outputs bit result }
{
    if care & bit == 0 {
        return false;
    }
    let rest = care - bit;
    byte::within(outputs, table.entry(rest, value & rest))
}

// Whether some literal of the cube is droppable. One at a time is enough: a cube with fewer literals may drive no more.
fn some_droppable(table: &CubeTable, care: usize, value: usize, outputs: u8) -> bool
    requires { Cube 8 care value }
    ensures { SomeDroppable table.now.outputs care value outputs result }
{
    // The weights 1, 2, 4 and so on, which no range steps through.
    let mut bit: usize = 1;
    while bit <= care {
        if droppable(table, care, value, outputs, bit) {
            return true;
        }
        bit += bit;
    }
    false
}

// The outputs of the cube's prime: all that it may drive, where that is some and each literal is needed for it.
pub fn prime_outputs(table: &CubeTable, care: usize, value: usize) -> Option<u8>
    requires { Cube 8 care value }
    ensures { CubePrime table.now.outputs care value result }
{
    let outputs = table.entry(care, value);
    if outputs == 0 || some_droppable(table, care, value, outputs) {
        return None;
    }
    Some(outputs)
}
