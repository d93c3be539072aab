// The cells of a table that are not off.
ghost use Rattle.table.specs.Cubes.{MayOf};

// For each vertex the outputs whose cell is on or don't-care, on | dc: what a term may drive there.
pub fn allowed(on: &[u8; 256], dc: &[u8; 256]) -> [u8; 256]
    ensures { MayOf on.now dc.now result }
{
    let mut may = [0u8; 256];
    for (v, outputs) in may.iter_mut().enumerate() {
        *outputs = on[v] | dc[v];
    }
    may
}
