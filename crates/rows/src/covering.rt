// The cover test by rows, and that of an irredundant cover: every row is met, and every member has a row that it alone meets.
ghost use Rattle.bits.specs.Bits.{Decides};
ghost use Rattle.rows.specs.Covers.{Cover, IrredundantCover, Privates};

use bits::set;

// Whether every row has a bit of m.
pub fn covers(rows: &[u64], m: u64) -> bool
    ensures { Decides (Cover rows.now m) result }
{
    rows.iter().all(|row| row & m != 0)
}

// The members of s that are the only member of s in some row.
pub fn privates(rows: &[u64], s: u64) -> u64
    ensures { Privates rows.now s result }
{
    let mut acc = 0;
    for row in rows {
        let x = row & s;
        if set::is_single(x) {
            acc |= x;
        }
    }
    acc
}

// Whether s is an irredundant cover: every row is met, and every member of s has a row of its own.
pub fn irredundant(rows: &[u64], s: u64) -> bool
    ensures { Decides (IrredundantCover rows.now s) result }
{
    covers(rows, s) && privates(rows, s) == s
}
