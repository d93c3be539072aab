// K8, "Multiply it out", over rows: row r is the set of the candidates that hold a cell, a product the set of those whose variables it has.
//
// `cell` is one cell, from one lent row into the other, and `sorting` puts the last products in order. No function here knows of tables:
// crate `incidence` makes the rows.
#![tactic(auto)]

ghost use Rattle.std.specs.Prelude.{◌≤◌, ◌≡◌, length};
ghost use Rattle.product.specs.Outcome.{RowsBelow, TakenTurns, MultipliedRows};

pub mod cell;
pub mod sorting;

// 17: at some cell there are more products than the 1,024 that a lent row has room for.
#[derive(Clone, Copy, Debug, PartialEq, Eq)]
pub struct TooMany;

// All cells: the rows take turns, and the last products are left, in no order, in the first row behind an even number of cells and in the
// second behind an odd one. Returns how many they are.
fn take_turns(rows: &[u64], n: u64, first: &mut [u64], second: &mut [u64]) -> Result<usize, TooMany>
    requires n_bound { (n ≤ 64) × (length first.old ≡ 1024) × (length second.old ≡ 1024) }
    requires rows_below { RowsBelow n rows.now }
    ensures { TakenTurns n rows.now first.new second.new result }
{
    first[0] = 0;
    let mut held = 1;
    for (i, row) in rows.iter().enumerate() {
        held = if i % 2 == 0 {
            cell::step(&first[..held], *row, second)?
        } else {
            cell::step(&second[..held], *row, first)?
        };
    }
    Ok(held)
}

// The row that holds the last products, rising, is handed back with their count; the first one where they are too many.
pub fn multiply_rows<'a>(
    rows: &[u64],
    n: u64,
    first: &'a mut [u64],
    second: &'a mut [u64],
) -> (&'a mut [u64], Result<usize, TooMany>)
    requires n_bound { (n ≤ 64) × (length first.old ≡ 1024) × (length second.old ≡ 1024) }
    requires rows_below { RowsBelow n rows.now }
    ensures { MultipliedRows n rows.now first.entry second.entry result.0 result.1 }
{
    let Ok(held) = take_turns(rows, n, first, second) else {
        return (first, Err(TooMany));
    };
    let last = if rows.len() % 2 == 0 { first } else { second };
    sorting::sort(&mut last[..held]);
    (last, Ok(held))
}
