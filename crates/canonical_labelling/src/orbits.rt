//! Starts of a table whose traversal is not needed, since automorphisms carry traversed starts to them.

ghost use Rattle.std.specs.Prelude.{◌≡◌, ◌<◌, ◌≤◌, ◌*◌, ◌++◌, ◌∷◌, [], true, false, replicate, length, slice_set, IfOk, OnOk};
ghost use Rattle.std.specs.List.{slice_index_or};
ghost use Rattle.table_definitions.specs.Table.{max_tets};
ghost use Rattle.signature_automorphism_laws.specs.Automorphisms as automorphisms;
ghost use Rattle.canonical_labelling.specs.Marks.{AreListed, AreOfSize, MarksFollow};

use crate::comparison::TableSize;
use crate::starts::numbered_start;
use gluing_table::Relabelling;
use std::alloc::{AllocError, Global};

/// Marks of the starts of a table, by number, a list of marked starts, and automorphisms of the table. Invariant: each
/// automorphism is a relabelling of a table with as many starts as there are marks.
#[derive(Drop)]
pub struct Orbits {
    pub marked: Vec<bool>,
    pub numbers: Vec<u32>,
    pub automorphisms: Vec<Relabelling>,
    pub ghost limited: { length marked.items ≤ 24 * max_tets },
    pub ghost listed: { AreListed numbers.items marked.items },
    pub ghost sizes: { AreOfSize (length marked.items) automorphisms.items },
}

/// The orbits of a table of this size without a mark or an automorphism.
pub fn no_orbits(alloc: Global, size: TableSize) -> Result<Orbits, AllocError>
    ensures marked { IfOk result (λ o. o.marked.items ≡ replicate (24 * size.count) false) }
    ensures automorphisms { IfOk result (λ o. o.automorphisms.items ≡ []) }
{
    let marked = vec![in alloc; false; 24 * size.count as usize]?;
    Ok(Orbits {
        marked,
        numbers: Vec::new(alloc),
        automorphisms: Vec::new(alloc),
    })
}

/// The number of the start to which `by` carries the start with number `number`.
fn carried_number(by: &Relabelling, number: u32) -> u32
    requires in_range { number < 24 * length by.now.images }
    requires limited { length by.now.images ≤ max_tets }
    ensures value { result ≡ automorphisms.carried_number by.now number }
    ensures in_range { result < 24 * length by.now.images }
{
    let start = numbered_start(number);
    let perm = start.perm.compose(by.perm(start.tet).inverse());
    24 * by.image(start.tet) + u32::from(perm.index())
}

/// Marks the start with number `number`.
fn mark(orbits: &mut Orbits, number: u32) -> Result<(), AllocError>
    requires { number < length orbits.old.marked.items }
    ensures marked { OnOk result (orbits.new.marked.items ≡ slice_set orbits.old.marked.items number true) }
    ensures automorphisms { OnOk result (orbits.new.automorphisms.items ≡ orbits.old.automorphisms.items) }
    ensures grows { OnOk result (length orbits.old.numbers.items ≤ length orbits.new.numbers.items) }
{
    if !orbits.marked[number as usize] {
        orbits.marked[number as usize] = true;
        orbits.numbers.push(number)?;
    }
    Ok(())
}

/// Marks the starts to which the automorphisms carry the marked start of index `i`.
fn mark_images(orbits: &mut Orbits, i: usize) -> Result<(), AllocError>
    requires { i < length orbits.old.numbers.items }
    ensures marked { OnOk result (MarksFollow orbits.old.automorphisms.items orbits.old.marked.items
        orbits.new.marked.items) }
    ensures size { OnOk result (length orbits.new.marked.items ≡ length orbits.old.marked.items) }
    ensures automorphisms { OnOk result (orbits.new.automorphisms.items ≡ orbits.old.automorphisms.items) }
{
    for j in 0..orbits.automorphisms.len() {
        let by = &orbits.automorphisms[j];
        let number = carried_number(by, orbits.numbers[i]);
        mark(orbits, number)?;
    }
    Ok(())
}

/// Marks the starts to which products of the automorphisms carry the marked starts of index `first` and above.
fn close(orbits: &mut Orbits, first: usize) -> Result<(), AllocError>
    ensures marked { OnOk result (MarksFollow orbits.old.automorphisms.items orbits.old.marked.items
        orbits.new.marked.items) }
    ensures size { OnOk result (length orbits.new.marked.items ≡ length orbits.old.marked.items) }
    ensures automorphisms { OnOk result (orbits.new.automorphisms.items ≡ orbits.old.automorphisms.items) }
{
    // each start is listed once, so there are at least as many marks as starts in the list
    for i in first..orbits.marked.len() {
        if i >= orbits.numbers.len() {
            return Ok(());
        }
        mark_images(orbits, i)?;
    }
    Ok(())
}

/// Marks the start with number `number` and the starts to which products of the automorphisms carry it.
pub fn mark_orbit(orbits: &mut Orbits, number: u32) -> Result<(), AllocError>
    requires { number < length orbits.old.marked.items }
    ensures marked { OnOk result (MarksFollow orbits.old.automorphisms.items
        (slice_set orbits.old.marked.items number true) orbits.new.marked.items) }
    ensures size { OnOk result (length orbits.new.marked.items ≡ length orbits.old.marked.items) }
    ensures automorphisms { OnOk result (orbits.new.automorphisms.items ≡ orbits.old.automorphisms.items) }
{
    let first = orbits.numbers.len();
    mark(orbits, number)?;
    close(orbits, first)
}

/// Adds the automorphism `by`, and marks the starts to which products of the automorphisms carry the marked ones.
pub fn add_automorphism(orbits: &mut Orbits, by: Relabelling) -> Result<(), AllocError>
    requires { 24 * length by.images ≡ length orbits.old.marked.items }
    ensures marked { OnOk result (MarksFollow orbits.new.automorphisms.items orbits.old.marked.items
        orbits.new.marked.items) }
    ensures size { OnOk result (length orbits.new.marked.items ≡ length orbits.old.marked.items) }
    ensures automorphisms { OnOk result (orbits.new.automorphisms.items ≡ orbits.old.automorphisms.items ++ by ∷ []) }
{
    orbits.automorphisms.push(by)?;
    close(orbits, 0)
}
