// The answers as bytes. Each writer receives the free part of the answer buffer and puts its answer in front, or leaves the part alone
// where the answer is longer, which it tells as `NoRoom`. It tells no other reason.
ghost use Rattle.std.specs.Prelude.{map, ◌≡◌, ◌*◌, ◌≤◌, length};
ghost use Rattle.model.specs.Base.{join};
ghost use Rattle.model.specs.Commands.{low};
ghost use Rattle.model.specs.Answers.{Answer, bytes_of, page_of, term_bytes};
ghost use Rattle.answers.specs.Writers.{Replied};

use model::Term;
use model::reason::Reason;

// Fills `room` with the sets, 8 bytes each, low byte first.
fn put_sets(room: &mut [u8], sets: &[u64])
    requires { length room.old ≡ 8 * length sets.now }
    ensures { room.new ≡ join (map (low 8) sets.now) }
{
    for (i, set) in sets.iter().enumerate() {
        room[8 * i..8 * i + 8].copy_from_slice(&set.to_le_bytes());
    }
}

// Fills `room` with the terms, 3 bytes each.
fn put_terms(room: &mut [u8], terms: &[Term])
    requires { length room.old ≡ 3 * length terms.now }
    ensures { room.new ≡ join (map term_bytes terms.now) }
{
    for (i, t) in terms.iter().enumerate() {
        room[3 * i..3 * i + 3].copy_from_slice(&[t.care, t.value, t.outputs]);
    }
}

// P's answer. The count fits a byte.
pub fn put_primes(free: &mut [u8], terms: &[Term]) -> Result<usize, Reason>
    requires { length terms.now ≤ 64 }
    ensures { Replied (bytes_of (Answer.primes_are terms.now)) free.old free.new result }
{
    let len = 2 + 3 * terms.len();
    if free.len() < len {
        return Err(Reason::NoRoom);
    }
    free[..2].copy_from_slice(&[0x70, terms.len() as u8]);
    put_terms(&mut free[2..len], terms);
    Ok(len)
}

// A page behind its first byte: the sets, and whether more stand above.
fn put_page_of(free: &mut [u8], code: u8, sets: &[u64], more: bool) -> Result<usize, Reason>
    requires { length sets.now ≤ 255 }
    ensures { Replied (page_of code sets.now more) free.old free.new result }
{
    let len = 3 + 8 * sets.len();
    if free.len() < len {
        return Err(Reason::NoRoom);
    }
    free[..3].copy_from_slice(&[code, sets.len() as u8, u8::from(more)]);
    put_sets(&mut free[3..len], sets);
    Ok(len)
}

// L's answer.
pub fn put_page(free: &mut [u8], sets: &[u64], more: bool) -> Result<usize, Reason>
    requires { length sets.now ≤ 255 }
    ensures { Replied (bytes_of (Answer.paged sets.now more)) free.old free.new result }
{
    put_page_of(free, 0x6c, sets, more)
}

// V's answer.
pub fn put_possible_page(free: &mut [u8], sets: &[u64], more: bool) -> Result<usize, Reason>
    requires { length sets.now ≤ 255 }
    ensures { Replied (bytes_of (Answer.possible_paged sets.now more)) free.old free.new result }
{
    put_page_of(free, 0x76, sets, more)
}

// C's answer: the two low bytes of the cost, then the set.
pub fn put_cheapest(free: &mut [u8], cost: u64, set: u64) -> Result<usize, Reason>
    ensures { Replied (bytes_of (Answer.cheapest_is cost set)) free.old free.new result }
{
    if free.len() < 11 {
        return Err(Reason::NoRoom);
    }
    free[0] = 0x63;
    free[1..3].copy_from_slice(&cost.to_le_bytes()[..2]);
    free[3..11].copy_from_slice(&set.to_le_bytes());
    Ok(11)
}

// N's answer: the sets, behind their count of two bytes.
pub fn put_products(free: &mut [u8], sets: &[u64]) -> Result<usize, Reason>
    requires { length sets.now ≤ 1024 }
    ensures { Replied (bytes_of (Answer.products_are sets.now)) free.old free.new result }
{
    let len = 3 + 8 * sets.len();
    if free.len() < len {
        return Err(Reason::NoRoom);
    }
    free[0] = 0x6e;
    free[1..3].copy_from_slice(&(sets.len() as u16).to_le_bytes());
    put_sets(&mut free[3..len], sets);
    Ok(len)
}

// E's answer.
pub fn put_end(free: &mut [u8]) -> Result<usize, Reason>
    ensures { Replied (bytes_of Answer.ended) free.old free.new result }
{
    if free.is_empty() {
        return Err(Reason::NoRoom);
    }
    free[0] = 0x65;
    Ok(1)
}
