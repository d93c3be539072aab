// The listed sets, rising.
ghost use Rattle.std.specs.Prelude.{◌≡◌, true, false, ℕ, ◌≤◌, length, get_or};
ghost use Rattle.lister.specs.Lister.{sought, Paged};
ghost use Rattle.lister.specs.Selected.{Passed};
ghost use Rattle.ranges.specs.Listed.{Listed, row_possibles};
ghost use Rattle.ranges.specs.Rivals.{KnownListed, KnownListed-prop, NoneListed};

use crate::market::Market;
use crate::notes::Notes;
use crate::{banned, rivals, weights};
use bits::set;
use lister::cursor;
use lister::cursor::{Cursor, PageFill, Walk};

// False only where no listed set lies between s and s | free. t may be any set.
fn promising(market: &Market, s: u64, free: u64, t: u64) -> bool
    ensures { let m = market.now in result ≡ false → NoneListed m.rows.now m.low.now m.high.now s free }
{
    let Some(left) = lister_narrowing::narrow(market.rows, s, free) else {
        return false;
    };
    !rivals::refuted(market, left.s, left.free, t) && rivals::rival(market, left.s, false).is_none()
}

// One above the lowest level at which x has no member: the range of that level holds nothing above x.
fn first_level(x: u64) -> u64 {
    u64::from(x.trailing_ones()) + 1
}

// Where to go on from x, which is not listed: behind the widest range around x that is found to hold no listed set. The range of a level, at
// which x has no member, is between x's members above the level and these with all below. t may be any set.
fn beyond(market: &Market, x: u64, t: u64, notes: &mut Notes) -> Cursor
    requires { let m = market.now in Listed (length m.low.now) m.rows.now m.low.now m.high.now x → ⊥ }
    ensures { let m = market.now in Passed (row_possibles (length m.low.now) m.rows.now m.low.now m.high.now) (record { at = x; over = false }) result }
{
    let mut c = Cursor::new(x).past();
    let alive = notes.alive(x);
    for i in first_level(x)..market.low.len() as u64 {
        let m = set::power(i);
        if x & m == 0 {
            if alive & m != 0 {
                return c;
            }
            let s = x - (x & (m - 1));
            if promising(market, s, m - 1, t) {
                notes.hope(m);
                return c;
            }
            c = Cursor::new(s + m);
        }
    }
    c
}

// Moves to the least listed set at or above its place. known is a listed set, where any is known.
fn find(market: &Market, known: Option<u64>, place: Cursor, notes: &mut Notes) -> Cursor
    requires { let m = market.now in KnownListed m.rows.now m.low.now m.high.now known }
    ensures { let m = market.now in result ≡ sought (row_possibles (length m.low.now) m.rows.now m.low.now m.high.now) place }
{
    let n = market.low.len() as u64;
    let mut c = place;
    loop {
        let d = c.seek(market.rows, n);
        if d.over {
            return Cursor {
                at: place.at,
                over: true,
            };
        }
        let Some(t) = rivals::judge(market, known, &notes.sets, d.at) else {
            notes.found(d.at);
            return d;
        };
        notes.remember(t);
        c = beyond(market, d.at, t, notes);
    }
}

// The walk over the listed sets. known is the last of them that was found.
#[derive(Drop)]
struct Listing<'a> {
    market: Market<'a>,
    known: Option<u64>,
    notes: Notes,
    ghost known_listed: { KnownListed market.rows.now market.low.now market.high.now known } by { KnownListed-prop market.rows.now market.low.now market.high.now known },
}

impl<'a> Walk for Listing<'a> {
    ghost listed = { λ w. let m = w.market in row_possibles (length m.low.now) m.rows.now m.low.now m.high.now };

    fn seek(&mut self, place: Cursor) -> Cursor {
        let found = find(&self.market, self.known, place, &mut self.notes);
        if !found.over {
            self.known = Some(found.at);
        }
        found
    }
}

// Puts into out the listed sets at or above start, rising, as many as fit. The rest of out stays. The walk goes over the rows without the
// candidates that no listed set has: it is the same list. The rows and the ends have one lifetime, at which a market holds them.
pub fn fill<'a>(
    rows: &'a [u64],
    low: &'a [u16],
    high: &'a [u16],
    start: u64,
    out: &mut [u64],
) -> PageFill
    requires rows_len_bound { length rows.now ≤ 2048 }
    requires low_len_bound { length low.now ≤ 64 }
    requires high_len { length high.now ≡ length low.now }
    requires by_index { (i : ℕ) → get_or low.now i 0 ≤ get_or high.now i 0 }
    ensures { Paged (row_possibles (length low.now) rows.now low.now high.now) start out.old out.new result }
{
    let unit = weights::common(low, high);
    let market = Market {
        rows,
        low,
        high,
        unit,
    };
    let banned = banned::banned(&market);
    let mut left: [u64; 2048] = [0; 2048];
    banned::cleared(rows, banned, &mut left);
    let mut listing = Listing {
        market: market.over(&left[..rows.len()]),
        known: None,
        notes: Notes::default(),
    };
    cursor::page(&mut listing, start, out)
}
