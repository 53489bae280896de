//! The cones, and the tables of small signatures, of several calls.
ghost use Rattle.std.specs.Prelude.{◌≤◌, length};
ghost use Rattle.text_definitions.specs.Text.{max_text};

use cone_core::{Ray, System, read_cone};
use gluing_table::Table;
use signature_codec::read_signature;
use skeleton::Skeleton;
use std::alloc::Global;
use std::process::Abort;
use std::test::Fail;
use text_io::Lexer;

/// The sphere of one tetrahedron.
pub const SPHERE: &[u8] = b"bkaagj";

/// The system that `text` describes.
pub fn cone(rt: &impl Abort, alloc: Global, text: &[u8]) -> Result<System, Fail>
    requires { length text.now ≤ max_text }
{
    let mut lexer = Lexer::new(text);
    assert!(rt; lexer.next_line());
    Ok(read_cone(alloc, &mut lexer).ok().ok_or("no cone")?)
}

/// The table of `signature`.
pub fn read_table(alloc: Global, signature: &[u8]) -> Result<Table, Fail> {
    Ok(read_signature(alloc, signature).ok().ok_or("no signature")?)
}

/// The skeleton of the table of `signature`.
pub fn skeleton_of(alloc: Global, signature: &[u8]) -> Result<Skeleton, Fail> {
    let table = read_table(alloc, signature)?;
    Ok(Skeleton::of(alloc, &table)?)
}

/// The entries of row `i`, or none if there is no such row.
pub fn entries(system: &System, i: u32) -> &[(u32, i32)] {
    if i < system.len() {
        system.row(i).entries()
    } else {
        &[]
    }
}

/// Asserts that `system` has the rows `rows`.
pub fn are_rows(rt: &impl Abort, system: &System, rows: &[&[(u32, i32)]]) {
    assert_eq!(rt; system.len() as usize, rows.len());
    let mut i = 0;
    for row in rows {
        assert_eq!(rt; entries(system, i), *row);
        i = u32::saturating_add(i, 1);
    }
}

/// Asserts that `ray` has the entries `vector`.
pub fn is_ray(rt: &impl Abort, ray: &Ray, vector: &[u128]) {
    assert_eq!(rt; ray.entries(), vector);
}

/// Asserts that `rays` are `vectors`.
pub fn are_rays(rt: &impl Abort, rays: &[Ray], vectors: &[&[u128]]) {
    assert_eq!(rt; rays.len(), vectors.len());
    for (ray, vector) in rays.iter().zip(vectors) {
        is_ray(rt, ray, vector);
    }
}
