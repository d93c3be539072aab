// The levels above a number that can hold an irredundant cover. Of level i, where at lacks i, are the sets that have i and above it what at has.
//
// Each member of an irredundant cover has a row of its own. One pass over the rows tells, for all levels at once, where no row is left that
// could be the own row of i, or of a member of at above i.
ghost use Rattle.std.specs.Prelude.{◌≡◌};
ghost use Rattle.bits.specs.Bits.{Highest};
ghost use Rattle.lister_narrowing.specs.Narrowing.{NoneBetween, Tightened};
ghost use Rattle.lister.specs.Levels.{OwnLevels, KeptLevels, PossibleLevels};

use bits::set;
use lister_narrowing::Tight;

// The levels at which row can be b's own, the highest member of own, which are the members of at in row: those below b that are not in row,
// and of these the ones above the next member of own. The contract says only that none is missing.
fn own_levels(row: u64, own: u64, b: u64) -> u64
    requires { Highest own b }
    ensures { OwnLevels row own result }
{
    let levels = set::minus(b - 1, row);
    let rest = set::minus(own, b);
    if rest == 0 {
        return levels;
    }
    set::minus(levels, set::highest(rest) - 1)
}

// The levels of fresh at which each member of at above has a row of its own. alone[b] are the levels at which b has one.
// The contract says only that none is missing.
fn kept_levels(alone: &[u64; 64], fresh: u64, at: u64) -> u64
    ensures { KeptLevels alone.now fresh at result }
{
    let mut good = fresh;
    for m in set::members(at) {
        good = set::minus(good, set::minus(m - 1, alone[set::index(m)]));
    }
    good
}

// The levels above at that can hold an irredundant cover. A level that is a member of at says nothing.
// The contract says only that the others hold none.
pub fn possible_levels(rows: &[u64], at: u64) -> u64
    ensures { PossibleLevels rows.now at result }
{
    let mut alone = [0u64; 64];
    let mut fresh: u64 = 0;
    for row in rows {
        let own = row & at;
        if own == 0 {
            fresh |= row;
        } else {
            let b = set::highest(own);
            alone[set::index(b)] |= own_levels(*row, own, b);
            fresh |= set::minus(*row, b - 1);
        }
    }
    kept_levels(&alone, fresh, at)
}

// Narrows s and free of a level, which holds no irredundant cover where possible is 0; None where none is left. The contract says only that
// none is lost. s and free come apart, as in `lister_narrowing::narrow`.
pub fn narrow_level(rows: &[u64], possible: u64, s: u64, free: u64) -> Option<Tight>
    requires { possible ≡ 0 → NoneBetween rows.now s free }
    ensures { Tightened rows.now s free result }
{
    if possible == 0 {
        return None;
    }
    lister_narrowing::narrow(rows, s, free)
}
