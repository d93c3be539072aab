// What is left of the rows when some candidates are taken and others given up.
ghost use Rattle.std.specs.Prelude.{◌≤◌, length};
ghost use Rattle.cheapest_nodes.specs.Plan.{ResidueIn};

use rows::keeping;

// Puts what is free of each row that s does not meet in front of out; returns how many.
pub fn unmet(rows: &[u64], s: u64, free: u64, out: &mut [u64]) -> usize
    requires { length rows.now ≤ length out.old }
    ensures { ResidueIn rows.now s free (length out.old) result out.new }
{
    keeping::put(rows, |row| (row & s == 0).then_some(row & free), out)
}
