// What the walk over the listed sets remembers. Nothing is promised of it and nothing leans on it: it may hold anything.
use bits::set;

#[derive(Default, Drop)]
pub struct Notes {
    // Levels that were found promising, and the number that they are levels of.
    alive: u64,
    of: u64,
    // Sets that were cheaper than others whatever the weights, the last one first.
    pub sets: [u64; 8],
}

impl Notes {
    // The levels of x that were found promising: those above the highest bit in which x differs from the number before.
    pub fn alive(&mut self, x: u64) -> u64 {
        let other = x ^ self.of;
        if other != 0 {
            let h = set::highest(other);
            self.alive = set::minus(set::minus(self.alive, h), h - 1);
            self.of = x;
        }
        self.alive
    }

    // The level m is promising.
    pub fn hope(&mut self, m: u64) {
        self.alive |= m;
    }

    // x is listed, so all its levels are promising.
    pub fn found(&mut self, x: u64) {
        self.alive = u64::MAX;
        self.of = x;
    }

    // Puts t in front of the sets.
    pub fn remember(&mut self, t: u64) {
        let mut carried = t;
        for note in self.sets.iter_mut() {
            let old = *note;
            *note = carried;
            if old == t {
                return;
            }
            carried = old;
        }
    }
}
