// The blocks among the candidates by vertex: `held` has at each vertex the set of the blocks that have it.
//
// The array is lent, and stands beside the record of the problem, which is passed by value: it is written where a block comes or a candidate
// goes, and read for the rows of the matrix and the cover test.
ghost use Rattle.std.specs.Prelude.{◌≡◌, cond, ◌<◌};
ghost use Rattle.std.specs.Int.Bits.{bit_or};
ghost use Rattle.table.specs.Blocks.{vertex_in};
ghost use Rattle.incidence.specs.Stored.{Adds, Removes, TakesOut};

use bits::set;
use model::Block;

// The set s of vertex v, with `member` besides where v is one of the vertices.
fn marked(s: u64, member: u64, vertices: &[u8; 32], v: u8) -> u64
    ensures { result ≡ cond (vertex_in vertices.now v) (bit_or s member) s }
{
    if table::blocks::has_vertex(vertices, v) {
        return s | member;
    }
    s
}

// Puts b in as candidate k, behind the others.
pub fn add(held: &mut [u64; 256], k: u64, b: Block)
    requires { k < 64 }
    ensures { Adds k b held.old held.new }
{
    let member = set::power(k);
    for (v, s) in held.iter_mut().enumerate() {
        *s = marked(*s, member, &b.vertices, v as u8);
    }
}

// Takes candidate k out: those above it move down by one.
fn remove(held: &mut [u64; 256], k: u64)
    requires { k < 64 }
    ensures { Removes k held.old held.new }
{
    for s in held.iter_mut() {
        *s = set::removed(*s, k);
    }
}

// Takes candidate k out where `blocks` are the candidates that are blocks: with none of them the sets are empty, and stay so.
pub fn take_out(held: &mut [u64; 256], blocks: u64, k: u64)
    requires { k < 64 }
    ensures { TakesOut blocks k held.old held.new }
{
    if blocks != 0 {
        remove(held, k);
    }
}
