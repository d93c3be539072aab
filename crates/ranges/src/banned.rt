// Candidates that no listed set has, and the rows without them: these have the same listed sets.
ghost use Rattle.std.specs.Prelude.{◌≤◌, length};
ghost use Rattle.ranges.specs.Listed.{Banned};
ghost use Rattle.ranges.specs.Rivals.{ClearedIn};

use crate::market::Market;
use crate::rivals;
use bits::set;

// The candidates whose rows can be met for less, whatever the weights.
pub fn banned(market: &Market) -> u64
    ensures { let m = market.now in Banned m.rows.now m.low.now m.high.now result }
{
    let mut acc: u64 = 0;
    for i in 0..market.low.len() as u64 {
        let m = set::power(i);
        if rivals::rival(market, m, false).is_some() {
            acc |= m;
        }
    }
    acc
}

// Puts the rows without the banned candidates in front of out.
pub fn cleared(rows: &[u64], banned: u64, out: &mut [u64])
    requires { length rows.now ≤ length out.old }
    ensures { ClearedIn rows.now banned (length out.old) out.new }
{
    for (i, row) in rows.iter().enumerate() {
        out[i] = set::minus(*row, banned);
    }
}
