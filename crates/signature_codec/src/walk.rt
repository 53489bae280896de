//! Visits the faces of a walk-ordered table in order.

ghost use Rattle.std.specs.Prelude.{◌≡◌, ◌<◌, length, IfOk, IfErr};
ghost use Rattle.table_definitions.specs.Lists.{same_list};
ghost use Rattle.table_definitions.specs.Permutation.{identity};
ghost use Rattle.table_definitions.specs.Table as gluings;
ghost use Rattle.signature_text_laws.specs.Walks as walks;
ghost use Rattle.signature_codec.specs.Views.{walk_view, named_face, TakesFace, IsWholeWalk, StopsAt};

use gluing_table::{Face, Glue, Table};
use out_of_memory::Failure;
use perm_four::{Perm4, perm_at};
use std::alloc::Global;

/// The number of tetrahedra seen, the types of the faces, and the gluings of those of type 2.
#[derive(Drop)]
pub struct TraversalSoFar {
    pub seen: u32,
    pub types: Vec<u8>,
    pub gluings: Vec<Glue>,
}

/// The table is not walk-ordered: `tet` and `face` are the first face, in order, at which it fails.
#[derive(Clone, Copy)]
pub struct NotOrdered {
    pub tet: u32,
    pub face: u8,
}

/// Why `spell` fails: the table is not walk-ordered, or memory runs out.
pub type SpellFault = Failure<NotOrdered>;

/// The error that `face` is not in order.
fn not_ordered(face: Face) -> NotOrdered
    ensures { named_face result ≡ face }
{
    NotOrdered {
        tet: face.tet,
        face: face.face,
    }
}

fn is_identity(perm: Perm4) -> bool
    ensures { result ≡ same_list perm identity }
{
    perm == perm_at(0)
}

/// Visits `face`, and fails with `NotOrdered` if it is not in order.
fn take_face(walk: &mut TraversalSoFar, table: &Table, face: Face) -> Result<(), SpellFault>
    requires { face.tet < length table.now }
    ensures takes { TakesFace (walk_view walk.new) face result (walks.take_face table.now face (walk_view walk.old)) }
{
    if face.tet >= walk.seen {
        return Err(Failure::Fault(not_ordered(face)));
    }
    let Some(glue) = table.glue(face) else {
        walk.types.push(0)?;
        return Ok(());
    };
    if glue.other_side(face).is_before(face) {
        return Ok(());
    }
    if glue.tet < walk.seen {
        walk.types.push(2)?;
        walk.gluings.push(glue)?;
        return Ok(());
    }
    if glue.tet == walk.seen && is_identity(glue.perm) {
        walk.types.push(1)?;
        walk.seen += 1;
        return Ok(());
    }
    Err(Failure::Fault(not_ordered(face)))
}

/// Visits all faces of `table` in order. Fails with `NotOrdered` at the first face at which `table` is not
/// walk-ordered.
pub fn walk_of(alloc: Global, table: &Table) -> Result<TraversalSoFar, SpellFault>
    ensures whole { IfOk result (IsWholeWalk table.now) }
    ensures stops { IfErr result (StopsAt table.now) }
{
    let mut walk = TraversalSoFar {
        seen: 1,
        types: Vec::new(alloc),
        gluings: Vec::new(alloc),
    };
    for place in 0..4 * table.len() {
        let face = Face {
            tet: place / 4,
            face: (place % 4) as u8,
        };
        take_face(&mut walk, table, face)?;
    }
    Ok(walk)
}
