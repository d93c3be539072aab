// The irredundant covers, rising.
ghost use Rattle.std.specs.Prelude.{◌≡◌, false, List, ℕ, ◌+◌, ◌^◌, ◌≤◌};
ghost use Rattle.rows.specs.Covers.{Node, row_covers};
ghost use Rattle.lister.specs.Lister.{LeastIn, RangeKept, sought, advanced, RisingSets, Paged};

use crate::levels;
use bits::set;
use lister_narrowing::Tight;
use rows::covering;

// The least irredundant cover in [s, s + 2^i). All of them lie between t.s and t.s | t.free, so that a candidate which t has decided
// costs no test; of one that is open, the half without it comes first. Where that half had none, the other may well have none either: it is
// tested exactly before it is searched, so that a range without a cover is left after one walk down.
fn least(rows: &[u64], i: u64, s: u64, t: Tight) -> Option<u64>
    requires node { Node i s }
    requires range_kept { RangeKept rows.now i s t }
    ensures { LeastIn rows.now s (s + 2 ^ i) result }
{
    if i == 0 {
        return covering::irredundant(rows, s).then_some(s);
    }
    let j = i - 1;
    let m = set::power(j);
    if t.s & m != 0 {
        return least(rows, j, s + m, t);
    }
    if t.free & m == 0 {
        return least(rows, j, s, t);
    }
    let rest = set::minus(t.free, m);
    if let Some(low) = lister_narrowing::narrow(rows, t.s, rest)
        && let Some(x) = least(rows, j, s, low)
    {
        return Some(x);
    }
    let high = lister_extension::narrow_exactly(rows, t.s | m, rest)?;
    least(rows, j, s + m, high)
}

// The least irredundant cover at or above at and below 2^n. From at, each 0 bit of at starts the next higher range of numbers: those
// with this bit at 1, the bits above as in at, and the bits below free. `levels` tells which ranges need no search.
fn climb(rows: &[u64], n: u64, at: u64) -> Option<u64>
    requires { n ≤ 64 }
    ensures { LeastIn rows.now at (2 ^ n) result }
{
    if set::low_mask(n) < at {
        return None;
    }
    if covering::irredundant(rows, at) {
        return Some(at);
    }
    let possible = levels::possible_levels(rows, at);
    for i in 0..n {
        let m = set::power(i);
        if at & m == 0 {
            let s = at - (at & (m - 1)) + m;
            if let Some(t) = levels::narrow_level(rows, possible & m, s, m - 1)
                && let Some(x) = least(rows, i, s, t)
            {
                return Some(x);
            }
        }
    }
    None
}

// Where the lister stands: the next set is the least at or above at; none is left where it is over.
// A number with a flag and no Option<u64>, since one that is over keeps the number at which it stopped.
#[derive(Clone, Copy)]
pub struct Cursor {
    pub at: u64,
    pub over: bool,
}

impl Cursor {
    pub fn new(start: u64) -> Cursor
        ensures { result ≡ record { at = start; over = false } }
    {
        Cursor {
            at: start,
            over: false,
        }
    }

    // Moves to the least irredundant cover at or above where it stands.
    pub fn seek(self, rows: &[u64], n: u64) -> Cursor
        requires { n ≤ 64 }
        ensures { result ≡ sought (row_covers n rows.now) self }
    {
        if self.over {
            return self;
        }
        match climb(rows, n, self.at) {
            Some(x) => Cursor { at: x, over: false },
            None => Cursor {
                at: self.at,
                over: true,
            },
        }
    }

    // Moves one above.
    pub fn past(self) -> Cursor
        ensures { result ≡ advanced self }
    {
        if self.over {
            return self;
        }
        match self.at.checked_add(1) {
            Some(at) => Cursor { at, over: false },
            None => Cursor {
                at: self.at,
                over: true,
            },
        }
    }
}

// How many sets were put into a row, which is lent and may be longer, and whether one stands above those.
#[derive(Clone, Copy)]
pub struct PageFill {
    pub count: usize,
    pub more: bool,
}

// A walk over a list of sets.
pub trait Walk {
    ghost listed: { Self → List ℕ };

    // Moves to the least set of the list at or above the place.
    fn seek(&mut self, place: Cursor) -> Cursor
        ensures found { result ≡ sought (listed self.old) place }
        ensures same { listed self.new ≡ listed self.old };
}

// Puts into out the sets of the walk's list at or above start, rising, as many as fit. The rest of out stays.
pub fn page<W: Walk>(walk: &mut W, start: u64, out: &mut [u64]) -> PageFill
    requires { RisingSets (W.listed walk.old) }
    ensures { Paged (W.listed walk.old) start out.old out.new result }
{
    let mut c = walk.seek(Cursor::new(start));
    for (i, slot) in out.iter_mut().enumerate() {
        if c.over {
            return PageFill {
                count: i,
                more: false,
            };
        }
        *slot = c.at;
        c = walk.seek(c.past());
    }
    PageFill {
        count: out.len(),
        more: !c.over,
    }
}

// The walk over the irredundant covers of rows below 2^n.
#[derive(Clone, Copy)]
struct Covers<'a> {
    rows: &'a [u64],
    n: u64,
    ghost in_range: { n ≤ 64 },
}

impl<'a> Walk for Covers<'a> {
    ghost listed = { λ w. row_covers w.n w.rows.now };

    fn seek(&mut self, place: Cursor) -> Cursor {
        place.seek(self.rows, self.n)
    }
}

// Puts into out the irredundant covers below 2^n and at or above start, rising, as many as fit. The rest of out stays.
pub fn fill(rows: &[u64], n: u64, start: u64, out: &mut [u64]) -> PageFill
    requires { n ≤ 64 }
    ensures { Paged (row_covers n rows.now) start out.old out.new result }
{
    page(&mut Covers { rows, n }, start, out)
}
