// The papers' words as definitions (specs/), and the theorems over them (proofs/).
//
// What a reader must believe is in specs/, in the order of paper 01; docs/REVIEW.md leads from each sentence of the paper to
// its definition and its theorem. The only code here is the term, the block and the prices, which other crates pass around,
// the places in a job, and the reasons for a refusal.
#![tactic(auto)]

ghost use Rattle.std.specs.Prelude.{◌≡◌};
ghost use Rattle.model.specs.Table.{in_cube};

pub mod place;
pub mod reason;

// A product term: the inputs that it reads, their values, and the outputs that it drives.
#[derive(Clone, Copy, Debug, Default, PartialEq, Eq)]
pub struct Term {
    pub care: u8,
    pub value: u8,
    pub outputs: u8,
}

// A ready-made block: the outputs that it drives, 32 bytes with bit v for vertex v, and its weight.
#[derive(Clone, Copy, Debug, PartialEq, Eq)]
pub struct Block {
    pub outputs: u8,
    pub vertices: [u8; 32],
    pub weight: u16,
}

// What a part charges for a term, for a literal and for an output connection.
#[derive(Clone, Copy, Debug, PartialEq, Eq)]
pub struct Prices {
    pub term: u8,
    pub literal: u8,
    pub connection: u8,
}

impl Term {
    // Whether vertex v lies in the term's cube.
    pub fn in_cube(self, v: u8) -> bool
        ensures { result ≡ in_cube self.care self.value v }
    {
        (v & self.care) == (self.value & self.care)
    }
}
