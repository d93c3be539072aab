// What the search for listed sets is given.
ghost use Rattle.std.specs.Prelude.{◌≡◌, ◌≤◌, ◌-◌, ◌^◌, length};
ghost use Rattle.ranges.specs.Rivals.{Quoted, Quoted-prop};

use bits::set;

// Rows, and a low and a high end for each of at most 64 candidates, all of them multiples of the unit.
#[derive(Clone, Copy)]
pub struct Market<'a> {
    pub rows: &'a [u64],
    pub low: &'a [u16],
    pub high: &'a [u16],
    pub unit: u64,
    pub ghost few_rows: { length rows.now ≤ 2048 },
    pub ghost quoted: { Quoted low.now high.now unit } by { Quoted-prop low.now high.now unit },
}

impl<'a> Market<'a> {
    // All candidates.
    pub fn all(&self) -> u64
        ensures { result ≡ 2 ^ length self.now.low.now - 1 }
    {
        set::low_mask(self.low.len() as u64)
    }

    // The same ends over other rows.
    pub fn over<'b>(&self, rows: &'b [u64]) -> Market<'b>
    where
        'a: 'b,
        requires { length rows.now ≤ 2048 }
        ensures rows_are { result.rows.now ≡ rows.now }
        ensures low_is { result.low.now ≡ self.now.low.now }
        ensures high_is { result.high.now ≡ self.now.high.now }
        ensures unit_is { result.unit ≡ self.now.unit }
    {
        Market {
            rows,
            low: self.low,
            high: self.high,
            unit: self.unit,
        }
    }
}
