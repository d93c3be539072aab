// Some of the rows, put in front of a buffer, as they are or with less in them.
ghost use Rattle.std.specs.Prelude.{◌≤◌, length};
ghost use Rattle.rows.specs.Keeping.{Kept};

// Puts what `keep` makes of each row in front of out, where it makes something; returns how many.
pub fn put<F: Fn(u64) -> Option<u64>>(rows: &[u64], keep: F, out: &mut [u64]) -> usize
    requires room { length rows.now ≤ length out.old }
    requires callable { F.IsAlwaysCallable keep }
    ensures { Kept (F.post keep) rows.now (length out.old) result out.new }
{
    let mut n = 0;
    for row in rows {
        if let Some(x) = keep(*row) {
            out[n] = x;
            n += 1;
        }
    }
    n
}
