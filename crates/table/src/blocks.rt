// Whether a block is well-formed, and whether it holds an off cell: refusals 18 and 10.
ghost use Rattle.std.specs.Prelude.{◌≡◌, ◌≤◌};
ghost use Rattle.model.specs.Blocks.{vertices_below};
ghost use Rattle.table.specs.Blocks.{vertex_in, no_off_at, TellsBlockFormed, TellsBlockNoOff};

use bits::byte;
use model::Block;

// Whether v is one of a block's vertices, which are lent: to pass them by value is to copy them at every vertex.
pub fn has_vertex(vertices: &[u8; 32], v: u8) -> bool
    ensures { result ≡ vertex_in vertices.now v }
{
    byte::has(vertices[usize::from(v / 8)], v % 8)
}

// Whether b has no vertex at or above `size`: looks at these alone.
fn vertices_below(size: usize, b: Block) -> bool
    ensures { result ≡ vertices_below size b }
{
    for v in size..256 {
        if has_vertex(&b.vertices, v as u8) {
            return false;
        }
    }
    true
}

// Whether b is well-formed for n inputs and m outputs, with the tests in the order of refusal 18.
#[tactic(auto, unfolding(model::specs::Blocks::block_formed))]
pub fn formed(n: u8, m: u8, b: Block) -> bool
    requires { (n ≤ 8) × (m ≤ 8) }
    ensures { TellsBlockFormed n m b result }
{
    b.outputs != 0
        && usize::from(b.outputs) < byte::bound(m)
        && vertices_below(byte::bound(n), b)
        && b.weight <= 850
}

// Whether a block with these outputs and vertices holds no off cell at vertex v, where it may drive the outputs `may`.
#[tactic(auto, unfolding(crate::specs::Blocks::no_off_at))]
fn no_off_at(may: u8, outputs: u8, vertices: &[u8; 32], v: u8) -> bool
    ensures { result ≡ no_off_at may outputs vertices.now v }
{
    !has_vertex(vertices, v) || byte::within(outputs, may)
}

// Whether a well-formed b holds no off cell, vertex by vertex: else refusal 10 applies.
pub fn holds_no_off(may: &[u8; 256], n: u8, b: Block) -> bool
    requires { n ≤ 8 }
    ensures { TellsBlockNoOff may.now n b result }
{
    for v in 0..byte::bound(n) {
        if !no_off_at(may[v], b.outputs, &b.vertices, v as u8) {
            return false;
        }
    }
    true
}
