//! Compares canonical traversals with a table while they are made, and stops at the first face that differs.

ghost use Rattle.std.specs.Prelude.{◌≡◌, ◌<◌, ◌≤◌, ◌+◌, ◌*◌, ◌/◌, ◌∷◌, [], true, ℕ, length, IfOk, OnOk};
ghost use Rattle.table_definitions.specs.Permutation as permutations;
ghost use Rattle.table_definitions.specs.Permutation.{IsPermutationOfFour};
ghost use Rattle.table_definitions.specs.Relabelling.{Relabelling};
ghost use Rattle.signature_definitions.specs.Labellings.{IsWalked};
ghost use Rattle.signature_laws.specs.Orders as orders;
ghost use Rattle.canonical_labelling.specs.Traces.{AreBelow, IsVisited, AgreesGlued, Agrees};

use crate::Start;
use crate::order::{face_from, start_across};
use crate::traversals::Traversal;
use gluing_table::{Face, Glue, Table};
use out_of_memory::NoMemory;
use perm_four::Perm4;
use std::alloc::{AllocError, Global};

/// The work space of a canonical traversal that is compared with a table: `order` holds the starts of the visited
/// tetrahedra by new number, and `numbers[t]` is the index of tetrahedron `t` there if it is visited. Other entries of
/// `numbers` are left from earlier traversals: a tetrahedron is visited if and only if `order` has it at that index.
#[derive(Drop)]
pub struct Trace {
    pub order: Vec<Start>,
    pub numbers: Vec<u32>,
    pub ghost below: { AreBelow (length numbers.items) order.items },
}

/// A work space for tables of `count` tetrahedra.
pub fn trace_of(alloc: Global, count: u32) -> Result<Trace, AllocError>
    ensures { IfOk result (λ t. length t.numbers.items ≡ count) }
{
    let order = Vec::with_capacity(alloc, count as usize)?;
    let numbers = vec![in alloc; 0u32; count as usize]?;
    Ok(Trace { order, numbers })
}

/// Whether tetrahedron `tet` is visited.
fn is_visited(trace: &Trace, tet: u32) -> bool
    requires { tet < length trace.now.numbers.items }
    ensures { result ≡ true → IsVisited trace.now.order.items tet }
{
    let number = trace.numbers[tet as usize] as usize;
    if number >= trace.order.len() {
        return false;
    }
    trace.order[number].tet == tet
}

/// Whether the gluing `glue` of the tetrahedron of `from` is mapped to `expected`, which reaches the tetrahedron of
/// `there`.
fn maps_to(from: Start, there: Start, glue: Glue, expected: Glue) -> bool
    ensures { glue.tet ≡ there.tet → permutations.compose there.perm
        (permutations.compose glue.perm (permutations.inverse from.perm)) ≡ expected.perm → result ≡ true }
{
    if there.tet != glue.tet {
        return false;
    }
    there.perm.compose(glue.perm.compose(from.perm.inverse())) == expected.perm
}

/// Whether the gluing `glue` of the tetrahedron of `from` agrees with `expected`. A gluing to the next tetrahedron
/// visits it, with the new number `expected.tet`, and agrees if it was not visited before.
fn agrees_glued(
    trace: &mut Trace,
    from: Start,
    glue: Glue,
    expected: Glue,
) -> Result<bool, AllocError>
    requires { glue.tet < length trace.old.numbers.items }
    ensures size { length trace.new.numbers.items ≡ length trace.old.numbers.items }
    ensures agrees { IfOk result (AgreesGlued (length trace.old.numbers.items) trace.old.order.items
        trace.new.order.items from glue expected) }
{
    let number = expected.tet as usize;
    if number < trace.order.len() {
        return Ok(maps_to(from, trace.order[number], glue, expected));
    }
    // a walk-ordered table has no such gluing
    if number > trace.order.len() || expected.perm != Perm4::identity() {
        return Ok(true);
    }
    if is_visited(trace, glue.tet) {
        return Ok(false);
    }
    trace.numbers[glue.tet as usize] = expected.tet;
    trace.order.push(start_across(from, glue))?;
    Ok(true)
}

/// Whether the traversal agrees with `target` at the face with index `place`: both have a boundary face there, or both
/// have a face that is glued in the same way.
fn agrees_at(
    trace: &mut Trace,
    target: &Table,
    table: &Table,
    place: u32,
) -> Result<bool, AllocError>
    requires in_range { place < 4 * length target.now }
    requires size { length trace.old.numbers.items ≡ length table.now }
    ensures size { length trace.new.numbers.items ≡ length trace.old.numbers.items }
    ensures agrees { IfOk result (Agrees table.now target.now trace.old.order.items trace.new.order.items) }
{
    let number = (place / 4) as usize;
    // a walk-ordered, connected target never gets here
    if number >= trace.order.len() {
        return Ok(true);
    }
    let from = trace.order[number];
    let expected = target.glue(Face {
        tet: place / 4,
        face: (place % 4) as u8,
    });
    let Some(glue) = table.glue(face_from(from, place)) else {
        return Ok(expected.is_none());
    };
    let Some(expected) = expected else {
        return Ok(false);
    };
    agrees_glued(trace, from, glue, expected)
}

/// Whether `traversal` may result in `target`. Returns `false` at the first face that differs. Reads each face of the
/// table at most once, and allocates nothing if `trace` has room for its tetrahedra.
pub fn may_reach(
    trace: &mut Trace,
    target: &Table,
    traversal: &Traversal<'_>,
) -> Result<bool, AllocError>
    requires { length trace.old.numbers.items ≡ length traversal.now.table.now }
    ensures size { length trace.new.numbers.items ≡ length trace.old.numbers.items }
    ensures may { IfOk result (λ may.
        (by : Relabelling) → IsWalked traversal.now.table.now traversal.now.start by target.now → may ≡ true) }
{
    trace.order.clear();
    trace.order.push(traversal.start)?;
    trace.numbers[traversal.start.tet as usize] = 0;
    for place in 0..4 * target.len() {
        if !agrees_at(trace, target, traversal.table, place)? {
            return Ok(false);
        }
    }
    Ok(true)
}
