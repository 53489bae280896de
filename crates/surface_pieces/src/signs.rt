//! The components on which signs exist.

ghost use Rattle.std.specs.Prelude.{◌≡◌, ◌*◌, ◌<◌, ◌↔◌, ℕ, true, false, length, slice_index, slice_set, if◌then◌else◌, IfOk};
ghost use Rattle.std.specs.List.{slice_index_or};
ghost use Rattle.surface_definitions.specs.Pieces as pieces;
ghost use Rattle.surface_pieces.specs.Joinings.{AreJoined};
ghost use Rattle.surface_pieces.specs.Searches.{IsFree, AreSigned};

use crate::joined::{SearchKind, SignKind};
use crate::surface::AdjacentDiscs;
use finite_walks::Numbering;
use std::alloc::{AllocError, Global};

/// Marks a component as one without signs if `same`: one of its discs is connected to itself with the other sign.
fn mark(free: &mut [bool], component: u32, same: bool)
    requires { component < length free.old }
    ensures { free.new ≡ (if same then slice_set free.old component false else free.old) }
{
    if same {
        free[component as usize] = false;
    }
}

/// The components of discs, and the classes of discs with signs. Invariant: each component is less than the number of
/// components, and `signed` has two classes for each disc.
#[derive(Clone, Copy)]
struct SignedComponents<'a> {
    components: &'a Numbering,
    signed: &'a [u32],
    ghost in_range: { (p : ℕ) → p < length components.now.classes.items → slice_index components.now.classes.items p < components.now.count },
    ghost two_each: { length signed.now ≡ 2 * length components.now.classes.items },
}

/// For each component whether none of its discs is connected to itself with the other sign.
fn free_components(alloc: Global, by: SignedComponents) -> Result<Vec<bool>, AllocError>
    ensures size { IfOk result (λ free. length free.items ≡ by.entry.components.now.count) }
    ensures each { IfOk result (λ free.
        (i : ℕ) → i < by.entry.components.now.count → (slice_index_or free.items i true ≡ true)
        ↔ IsFree by.entry.signed.now by.entry.components.now.classes.items i) }
{
    let SignedComponents { components, signed } = by;
    let mut free = vec![in alloc; true; components.count as usize]?;
    for piece in 0..components.classes.len() {
        let same = signed[2 * piece] == signed[2 * piece + 1];
        mark(&mut free, components.classes[piece], same);
    }
    Ok(free)
}

/// For each of `components` whether signs of kind `signs` exist on it.
pub fn signs_of<const N: usize>(
    alloc: Global,
    joined: &AdjacentDiscs<N>,
    components: &Numbering,
    signs: SignKind,
) -> Result<Vec<bool>, AllocError>
    requires joined { AreJoined joined.now.surface.table.now joined.now.surface.coords.system
        joined.now.surface.entries.now joined.now.rows.now }
    requires components { pieces.AreComponents joined.now.surface.table.now joined.now.surface.coords.system
        joined.now.surface.entries.now components.now.classes.items components.now.count }
    ensures { IfOk result (λ free. AreSigned signs joined.now.surface.table.now joined.now.surface.coords.system
        joined.now.surface.entries.now components.now.classes.items components.now.count free.items) }
{
    let signed = joined.classes_of(alloc, SearchKind::Signed(signs))?;
    let by = SignedComponents {
        components,
        signed: &signed.classes,
    };
    let free = free_components(alloc, by)?;
    Ok(free)
}
