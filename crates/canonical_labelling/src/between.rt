//! One relabelling, followed by the inverse of another.

ghost use Rattle.std.specs.Prelude.{◌≡◌, ◌<◌, ◌^◌, ℕ, length, slice_index, IfOk};
ghost use Rattle.table_definitions.specs.Relabelling.{IsRelabelling};
ghost use Rattle.signature_laws.specs.Between as relabellings;
ghost use Rattle.signature_laws.specs.Between.{images_between, perms_between};

use gluing_table::Relabelling;
use out_of_memory::NoMemory;
use perm_four::Perm4;
use std::alloc::{AllocError, Global};

/// Two relabellings of the same number of tetrahedra.
#[derive(Clone, Copy)]
pub struct RelabellingPair<'a> {
    pub first: &'a Relabelling,
    pub second: &'a Relabelling,
    pub ghost limited: { length first.now.images < 2 ^ 32 },
    pub ghost equal: { length second.now.images ≡ length first.now.images },
}

/// The images of the composition of the first relabelling of `pair` with the inverse of the second, whose old numbers
/// are `olds`.
fn images_of(alloc: Global, pair: RelabellingPair<'_>, olds: &[u32]) -> Result<Vec<u32>, AllocError>
    requires { length olds.now ≡ length pair.first.now.images }
    ensures { IfOk result (λ images. images.items ≡ images_between pair.entry.first.now olds.now) }
{
    let mut images = Vec::with_capacity(alloc, olds.len())?;
    for tet in 0..olds.len() as u32 {
        images.push(olds[pair.first.image(tet) as usize])?;
    }
    Ok(images)
}

/// The permutations of the composition of the first relabelling of `pair` with the inverse of the second, whose images
/// are `images`.
fn perms_of(
    alloc: Global,
    pair: RelabellingPair<'_>,
    images: &[u32],
) -> Result<Vec<Perm4>, AllocError>
    requires equal { length images.now ≡ length pair.first.now.images }
    requires in_range { (t : ℕ) → t < length images.now → slice_index images.now t < length pair.second.now.images }
    ensures { IfOk result (λ perms. perms.items ≡ perms_between pair.entry.first.now pair.entry.second.now images.now) }
{
    let mut perms = Vec::with_capacity(alloc, images.len())?;
    for tet in 0..images.len() as u32 {
        let back = pair.second.perm(images[tet as usize]).inverse();
        perms.push(back.compose(pair.first.perm(tet)))?;
    }
    Ok(perms)
}

/// The composition of the first relabelling of `pair` with the inverse of the second: first the one, then back by the
/// other.
pub fn between(alloc: Global, pair: RelabellingPair<'_>) -> Result<Relabelling, NoMemory>
    requires { IsRelabelling (length pair.first.now.images) pair.first.now }
    ensures { IfOk result (λ by. by
        ≡ relabellings.between (length pair.entry.first.now.images) pair.entry.first.now pair.entry.second.now) }
{
    let olds = pair.second.old_numbers(alloc)?;
    let images = images_of(alloc, pair, &olds)?;
    let perms = perms_of(alloc, pair, &images)?;
    Ok(Relabelling::from_sound(images, perms))
}
