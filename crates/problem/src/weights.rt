// The weight of a candidate: what its term costs at the prices set.
ghost use Rattle.std.specs.Prelude.{◌≡◌, map, ◌≤◌, length};
ghost use Rattle.std.specs.Int.Count.{ones};
ghost use Rattle.model.specs.Candidates.{literals_charged, term_cost};
ghost use Rattle.bits.specs.Lists.{Filled};

use model::{Prices, Term};

// The weights of the terms, 64 at most.
pub fn weights(w: Prices, terms: &[Term]) -> [u16; 64]
    requires { length terms.now ≤ 64 }
    ensures { Filled 64 (map (term_cost w) terms.now) result (length terms.now) }
{
    let mut all = [0; 64];
    for (i, t) in terms.iter().enumerate() {
        all[i] = weight(w, *t);
    }
    all
}

// The weight of a term: its price, that of each literal charged, and that of each output.
pub fn weight(w: Prices, t: Term) -> u16
    ensures { result ≡ term_cost w t }
{
    u16::from(w.term)
        + u16::from(w.literal) * charged(t)
        + u16::from(w.connection) * ones_in(t.outputs)
}

// The literals charged: no literal or one goes straight into the sum.
fn charged(t: Term) -> u16
    ensures { (result ≡ literals_charged t) × (result ≤ 8) }
{
    let k = ones_in(t.care);
    if k < 2 {
        return 0;
    }
    k
}

// As 16 bits: std counts ones in 32.
fn ones_in(b: u8) -> u16
    ensures { (result ≡ ones b) × (result ≤ 8) }
{
    u8::count_ones(b) as u16
}
