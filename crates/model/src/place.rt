// Where in a job a command may stand.
ghost use Rattle.std.specs.Prelude.{◌≡◌};
ghost use Rattle.model.specs.Places.{place_of};

// The place in a job, by the furthest that came: nothing, I, W, a row by R or B, a candidate by T, F or A, or a P, G, L, V, C or N.
#[derive(Clone, Copy, Debug, PartialEq, Eq, PartialOrd, Ord)]
pub enum Place {
    Start,
    Begun,
    InPrices,
    AmongRows,
    InCandidates,
    Queried,
}

impl Place {
    // Its number: each is behind those of a lower one.
    pub fn number(self) -> u8
        ensures { result ≡ place_of self }
    {
        match self {
            Place::Start => 0,
            Place::Begun => 1,
            Place::InPrices => 2,
            Place::AmongRows => 3,
            Place::InCandidates => 4,
            Place::Queried => 5,
        }
    }
}
