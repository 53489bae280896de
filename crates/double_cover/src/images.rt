//! Relabellings of the cover that fix all vertex numbers.

ghost use Rattle.std.specs.Prelude.{◌≡◌, ◌*◌, ◌<◌, length, map, replicate, IfOk};
ghost use Rattle.table_definitions.specs.Lists.{below};
ghost use Rattle.table_definitions.specs.Permutation.{identity};
ghost use Rattle.table_definitions.specs.Relabelling.{IsRelabelling};
ghost use Rattle.cover_definitions.specs.Cover as definition;

use crate::sheets::{Sheet, Sheets};
use gluing_table::Relabelling;
use perm_four::Perm4;
use std::alloc::{AllocError, Global};

/// The image of each tetrahedron of the cover under the deck transformation, by the numbering `sheets`.
pub fn exchange_images(alloc: Global, sheets: Sheets) -> Result<Vec<u32>, AllocError>
    ensures { IfOk result (λ images.
        images.items ≡ map (λ u. definition.above sheets.tets (definition.over sheets.tets u)
        (definition.other_sheet (definition.sheet sheets.tets u))) (below (2 * sheets.tets))) }
{
    let mut images = Vec::with_capacity(alloc, 2 * sheets.tets as usize)?;
    for tet in 0..2 * sheets.tets {
        let there = sheets.sheet(tet).other();
        images.push(sheets.above(sheets.over(tet), there))?;
    }
    Ok(images)
}

/// The copy of the base to which tetrahedron `tet` of the cover is mapped.
fn copy_of(sheets: Sheets, signs: &[bool], tet: u32) -> Sheet
    requires one_each { length signs.now ≡ sheets.tets }
    requires in_range { tet < 2 * sheets.tets }
    ensures { result.number ≡ definition.copy_of sheets.tets signs.now tet }
{
    let sheet = sheets.sheet(tet);
    if signs[sheets.over(tet) as usize] {
        sheet
    } else {
        sheet.other()
    }
}

/// The image of each tetrahedron of the cover in two copies of a base with the orientation `signs`, by the numbering
/// `sheets`.
pub fn split_images(alloc: Global, sheets: Sheets, signs: &[bool]) -> Result<Vec<u32>, AllocError>
    requires { length signs.now ≡ sheets.tets }
    ensures { IfOk result (λ images.
        images.items ≡ map (λ u. definition.above sheets.tets (definition.over sheets.tets u)
        (definition.copy_of sheets.tets signs.now u)) (below (2 * sheets.tets))) }
{
    let mut images = Vec::with_capacity(alloc, 2 * sheets.tets as usize)?;
    for tet in 0..2 * sheets.tets {
        let copy = copy_of(sheets, signs, tet);
        images.push(sheets.above(sheets.over(tet), copy))?;
    }
    Ok(images)
}

/// The relabelling with the images `images` that fixes all vertex numbers.
pub fn by_images(alloc: Global, images: Vec<u32>) -> Result<Relabelling, AllocError>
    requires { IsRelabelling (length images.items)
        (record { images = images.items; perms = replicate (length images.items) identity }) }
    ensures { IfOk result (λ by. by
        ≡ record { images = images.items; perms = replicate (length images.items) identity }) }
{
    let perms = vec![in alloc; Perm4::identity(); images.len()]?;
    Ok(Relabelling::from_sound(images, perms))
}
