//! Signs of tetrahedra, and orientations.

ghost use Rattle.std.specs.Prelude.{◌≡◌, ◌*◌, ◌+◌, ◌<◌, ◌≤◌, ℕ, length, slice_index, IfOk, IsTrue, ◌≢◌, false};
ghost use Rattle.std.specs.Option.{option_map};
ghost use Rattle.skeleton_definitions.specs.Skeleton.{IsOrientation};
ghost use Rattle.skeleton_class_laws.specs.Signs.{crossed_sign, crossed_vertex_sign, AreSignsBy};
ghost use Rattle.skeleton.specs.Parts.{items_of};

use crate::crossings::Exit;
use crate::numbering::classes_of;
use gluing_table::Table;
use out_of_memory::NoMemory;
use skeleton_class_laws::Kind;
use std::alloc::Global;

/// The signed tetrahedron, with index 2t + sign, to which `place` is glued across `exit.face`, or `None` at a boundary
/// face. An odd gluing keeps the sign, and an even one changes it.
pub fn sign_across(exit: Exit<'_>, place: u32) -> Option<u32>
    requires { place < 2 * length exit.table.now }
    ensures { result ≡ crossed_sign exit.entry.table.now place exit.entry.face }
{
    let Some(glue) = exit.of(place / 2) else {
        return None;
    };
    let sign = place % 2;
    if glue.perm.is_odd() {
        Some(2 * glue.tet + sign)
    } else {
        Some(2 * glue.tet + (1 - sign))
    }
}

/// The signed vertex, with index 2(4t + v) + sign, to which `place` is glued across `exit.face`; `None` if the vertex
/// is opposite the face or the face is a boundary face.
pub fn vertex_sign_across(exit: Exit<'_>, place: u32) -> Option<u32>
    requires { place < 8 * length exit.table.now }
    ensures { result ≡ crossed_vertex_sign exit.entry.table.now place exit.entry.face }
{
    let v = (place / 2 % 4) as u8;
    if v == exit.face {
        return None;
    }
    let Some(glue) = exit.of(place / 8) else {
        return None;
    };
    let vertex = 4 * glue.tet + glue.perm.image(v) as u32;
    let sign = place % 2;
    if glue.perm.is_odd() {
        Some(2 * vertex + sign)
    } else {
        Some(2 * vertex + (1 - sign))
    }
}

/// Whether each of the first `count` tetrahedra has different classes for its two signs.
fn is_consistent(classes: &[u32], count: u32) -> bool
    requires { 2 * count ≤ length classes.now }
    ensures separate { IsTrue result → (t : ℕ) → t < count
        → slice_index classes.now (2 * t) ≢ slice_index classes.now (2 * t + 1) }
    ensures joined { result ≡ false → (t : ℕ) × (t < count)
        × (slice_index classes.now (2 * t) ≡ slice_index classes.now (2 * t + 1)) }
{
    for tet in 0..count {
        if classes[2 * tet as usize] == classes[2 * tet as usize + 1] {
            return false;
        }
    }
    true
}

fn signs_by(alloc: Global, classes: &[u32], count: u32) -> Result<Vec<bool>, NoMemory>
    requires { 2 * count ≤ length classes.now }
    ensures { IfOk result (λ signs. AreSignsBy classes.now count signs.items) }
{
    let mut signs = Vec::with_capacity(alloc, count as usize)?;
    for tet in 0..count {
        signs.push(classes[2 * tet as usize] < classes[2 * tet as usize + 1])?;
    }
    Ok(signs)
}

/// An orientation of `table`: signs that are equal across odd gluings and differ across even ones, true at the least
/// tetrahedron of each component. `None` if `table` is non-orientable.
pub fn orientation_of(alloc: Global, table: &Table) -> Result<Option<Vec<bool>>, NoMemory>
    ensures { IfOk result (λ r. IsOrientation table.now (option_map items_of r)) }
{
    let classes = classes_of(alloc, table, Kind::Signs)?.classes;
    if is_consistent(&classes, table.len()) {
        let signs = signs_by(alloc, &classes, table.len())?;
        Ok(Some(signs))
    } else {
        Ok(None)
    }
}
