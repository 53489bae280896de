//! The relabelling of a canonical traversal.

ghost use Rattle.std.specs.Prelude.{length, IfOk, OnOk};
ghost use Rattle.table_definitions.specs.Permutation.{IsPermutationOfFour};
ghost use Rattle.table_definitions.specs.Relabelling.{IsRelabelling};
ghost use Rattle.signature_laws.specs.Orders.{Numbers, whole_order};

use crate::order::order_of;
use crate::traversals::Traversal;
use gluing_table::Relabelling;
use out_of_memory::NoMemory;
use std::alloc::Global;

/// The relabelling of `traversal`: each tetrahedron gets its position in the order in which it is reached, by the
/// permutation of its start.
pub fn relabelling_of(alloc: Global, traversal: &Traversal<'_>) -> Result<Relabelling, NoMemory>
    ensures bijection { IfOk result (λ by. IsRelabelling (length traversal.now.table.now) by) }
    ensures numbers { IfOk result (λ by. Numbers (whole_order traversal.now.table.now traversal.now.start) by) }
    ensures permutes { OnOk result (IsPermutationOfFour traversal.now.start.perm) }
{
    let count = traversal.table.len() as usize;
    let order = order_of(alloc, traversal)?;
    let mut images = vec![in alloc; 0u32; count]?;
    // a placeholder: each entry is overwritten, since each tetrahedron occurs in `order`
    let mut perms = vec![in alloc; traversal.start.perm; count]?;
    for (i, start) in order.iter().enumerate() {
        images[start.tet as usize] = i as u32;
        perms[start.tet as usize] = start.perm;
    }
    Ok(Relabelling::from_sound(images, perms))
}
