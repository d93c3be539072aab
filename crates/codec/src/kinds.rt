// The commands: their bytes, their operands, their places in a job.
ghost use Rattle.std.specs.Prelude.{◌≡◌, IfOk};
ghost use Rattle.model.specs.Commands as model;
ghost use Rattle.model.specs.Commands.{kind_of, is, width, is_query_kind, allowed};
ghost use Rattle.model.specs.Places.{place_of};
ghost use Rattle.model.specs.Reasons.{told};
ghost use Rattle.codec.specs.Kinds.{kind_is, kind_told, Decodes, formed, Describes, early_refusal};

use model::place::Place;
use model::reason::Reason;

// The commands by their letters.
#[derive(Clone, Copy, Debug, PartialEq, Eq)]
pub enum Kind {
    I,
    W,
    R,
    B,
    T,
    F,
    P,
    A,
    D,
    G,
    L,
    V,
    C,
    N,
    E,
}

// The command of a byte; None for a byte that is no command.
#[tactic(auto, unfolding(model::specs::Commands::kind_of))]
pub fn kind_of(b: u8) -> Option<Kind>
    ensures { kind_told result ≡ kind_of b }
{
    match b {
        0x49 => Some(Kind::I),
        0x57 => Some(Kind::W),
        0x52 => Some(Kind::R),
        0x42 => Some(Kind::B),
        0x54 => Some(Kind::T),
        0x46 => Some(Kind::F),
        0x50 => Some(Kind::P),
        0x41 => Some(Kind::A),
        0x44 => Some(Kind::D),
        0x47 => Some(Kind::G),
        0x4c => Some(Kind::L),
        0x56 => Some(Kind::V),
        0x43 => Some(Kind::C),
        0x4e => Some(Kind::N),
        0x45 => Some(Kind::E),
        _ => None,
    }
}

// The same as a conversion. A byte that is no command is told as `NoCommand`.
impl TryFrom<u8> for Kind {
    type Error = Reason;

    ghost try_from_gives = { Decodes };

    fn try_from(b: u8) -> Result<Self, Reason> {
        kind_of(b).ok_or(Reason::NoCommand)
    }
}

// What describes a command: its byte, the width of its operands, the number of the last place at which it may stand, since `is_allowed` takes
// any number, and whether it is a query.
#[derive(Clone, Copy, Debug, PartialEq, Eq)]
pub struct Form {
    pub code: u8,
    pub width: usize,
    pub last: u8,
    pub query: bool,
}

impl Form {
    fn new(code: u8, width: usize, last: Place, query: bool) -> Self
        ensures { result ≡ formed code width (place_of last) query }
    {
        Form {
            code,
            width,
            last: last.number(),
            query,
        }
    }
}

impl Kind {
    // What describes each command.
    pub fn form(self) -> Form
        ensures { Describes (kind_is self) result }
    {
        match self {
            Kind::I => Form::new(0x49, 2, Place::Start, false),
            Kind::W => Form::new(0x57, 3, Place::Begun, false),
            Kind::R => Form::new(0x52, 3, Place::AmongRows, false),
            Kind::B => Form::new(0x42, 17, Place::AmongRows, false),
            Kind::T => Form::new(0x54, 3, Place::InCandidates, false),
            Kind::F => Form::new(0x46, 35, Place::InCandidates, false),
            Kind::P => Form::new(0x50, 0, Place::AmongRows, false),
            Kind::A => Form::new(0x41, 3, Place::Queried, false),
            Kind::D => Form::new(0x44, 1, Place::Queried, false),
            Kind::G => Form::new(0x47, 5, Place::Queried, false),
            Kind::L => Form::new(0x4c, 9, Place::Queried, true),
            Kind::V => Form::new(0x56, 9, Place::Queried, true),
            Kind::C => Form::new(0x43, 0, Place::Queried, true),
            Kind::N => Form::new(0x4e, 0, Place::Queried, true),
            Kind::E => Form::new(0x45, 0, Place::Queried, false),
        }
    }

    // How many operand bytes it has.
    pub fn width(self) -> usize
        ensures { result ≡ width (kind_is self) }
    {
        self.form().width
    }

    // Whether it is a query.
    pub fn is_query(self) -> bool
        ensures { result ≡ is_query_kind (kind_is self) }
    {
        self.form().query
    }

    // Whether it is the E that ends a job.
    pub fn is_end(self) -> bool
        ensures { result ≡ is (kind_is self) model.Kind.E }
    {
        matches!(self, Kind::E)
    }

    // Whether it may stand at this place of a job: I at the start, all others behind it.
    pub fn is_allowed(self, place: u8) -> bool
        ensures { result ≡ allowed (kind_is self) place }
    {
        (matches!(self, Kind::I) || Place::Begun.number() <= place) && place <= self.form().last
    }
}

// What describes the command of a byte; one that is no command has the byte 0 and no operands. Inlined: each caller looks at one field.
#[inline(always)]
pub fn form_of(b: u8) -> Form
    ensures { Describes (kind_of b) result }
{
    match kind_of(b) {
        Some(k) => k.form(),
        None => Form::new(0, 0, Place::Start, false),
    }
}

// Whether the command of a byte may stand at this place of a job; one that is no command stands nowhere.
pub fn is_allowed(b: u8, place: u8) -> bool
    ensures { result ≡ allowed (kind_of b) place }
{
    match kind_of(b) {
        Some(k) => k.is_allowed(place),
        None => false,
    }
}

// Whether the command of a byte is a query.
pub fn is_query(b: u8) -> bool
    ensures { result ≡ is_query_kind (kind_of b) }
{
    form_of(b).query
}

// Whether it is the E that ends a job.
pub fn is_end(b: u8) -> bool
    ensures { result ≡ is (kind_of b) model.Kind.E }
{
    match kind_of(b) {
        Some(k) => k.is_end(),
        None => false,
    }
}

// How many operand bytes it has; a byte that is no command has none.
pub fn width_of(b: u8) -> usize
    ensures { result ≡ width (kind_of b) }
{
    form_of(b).width
}

// The command of byte b at this place with `rest` bytes behind b; or why it is refused: `NoCommand`, `WrongPlace` or `NoOperands`, the first
// that applies.
pub fn early_refusal(b: u8, place: u8, rest: usize) -> Result<Kind, Reason>
    ensures told { told result ≡ early_refusal (kind_of b) place rest }
    ensures kind { IfOk result (λ k. kind_is k ≡ kind_of b) }
{
    let k = Kind::try_from(b)?;
    if !is_allowed(b, place) {
        return Err(Reason::WrongPlace);
    }
    if rest < width_of(b) {
        return Err(Reason::NoOperands);
    }
    Ok(k)
}
