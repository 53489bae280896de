//! Decides which moves are legal.

ghost use Rattle.std.specs.Prelude.{◌≡◌, ◌<◌, ◌≤◌, ◌∷◌, length, map, Some, None, IfOk, IfErr, OnOk};
ghost use Rattle.table_definitions.specs.Lists.{has};
ghost use Rattle.move_definitions.specs.Moves as moves;
ghost use Rattle.move_laws.specs.Faults.{verdict, first_facet_fault, found_facets, pairs_fault, IsPattern, facets_below};

use crate::facet::{facet_at, is_matched, own_facet};
use crate::{Facet, Move};
use arrayvec::ArrayVec;
use gluing_table::Table;
use move_definitions::MoveFault;

/// The facets that a legal move removes, ascending by missing label.
#[derive(Drop)]
pub struct Pattern {
    pub facets: ArrayVec<Facet, 4>,
}

/// Whether tetrahedron `tet` is one of `facets`.
pub fn is_of_facet(facets: &[Facet], tet: u32) -> bool
    ensures { result ≡ has (map (λ f. f.tet) facets.now) tet }
{
    for facet in facets {
        if facet.tet == tet {
            return true;
        }
    }
    false
}

/// Whether tetrahedron `tet` is the move's own or one of `facets`.
fn is_taken(own: u32, facets: &[Facet], tet: u32) -> bool
    ensures { result ≡ has (own ∷ map (λ f. f.tet) facets.now) tet }
{
    own == tet || is_of_facet(facets, tet)
}

/// The facet across the face of the move's tetrahedron opposite `label`. Fails with `Boundary` at a boundary face, or
/// with `Repeated` if its tetrahedron is already one of the facets.
fn find_facet(table: &Table, m: &Move, label: u8, found: &[Facet]) -> Result<Facet, MoveFault>
    requires a_label { label < 4 }
    requires from_core { length m.now.core ≤ label }
    requires found { found.now ≡ facets_below table.now m.now label }
    ensures facet { IfOk result (λ f. Some f ≡ moves.facet table.now m.now label) }
    ensures none { OnOk result (moves.facet_fault table.now m.now label (moves.facet table.now m.now label) ≡ None) }
    ensures fault { IfErr result (λ e.
        moves.facet_fault table.now m.now label (moves.facet table.now m.now label) ≡ Some e) }
{
    let Some(facet) = facet_at(table, *m, label) else {
        return Err(MoveFault::Boundary { label });
    };
    if is_taken(m.tet, found, facet.tet) {
        return Err(MoveFault::Repeated { label });
    }
    Ok(facet)
}

/// The facets across the faces of the tetrahedron of `m`, from the first label outside the core on. Fails at the first
/// label at which `find_facet` does.
fn find_facets(table: &Table, m: &Move) -> Result<ArrayVec<Facet, 4>, MoveFault>
    ensures some { 0 < length m.now.core }
    ensures most { length m.now.core ≤ 4 }
    ensures facets { IfOk result (λ facets. facets.items ≡ found_facets table.now m.now) }
    ensures none { OnOk result (first_facet_fault table.now m.now ≡ None) }
    ensures fault { IfErr result (λ e. first_facet_fault table.now m.now ≡ Some e) }
{
    let mut facets = ArrayVec::new();
    for label in m.core_size()..4 {
        let facet = find_facet(table, m, label, &facets)?;
        facets.push(facet);
    }
    Ok(facets)
}

/// Fails with `NotMatched` if `f` and `g` are not glued to each other label by label.
fn check_pair(table: &Table, f: Facet, g: Facet) -> Result<(), MoveFault>
    ensures { result ≡ verdict (moves.pair_fault table.now (Some f) (Some g)) }
{
    if is_matched(table, f, g) {
        Ok(())
    } else {
        Err(MoveFault::NotMatched {
            first: f.missing,
            second: g.missing,
        })
    }
}

/// Fails with `NotMatched` at the first pair of `facets` that are not glued to each other.
fn check_pairs(table: &Table, facets: &[Facet]) -> Result<(), MoveFault>
    ensures { result ≡ verdict (pairs_fault table.now facets.now) }
{
    if facets.len() == 2 {
        return check_pair(table, facets[0], facets[1]);
    }
    if facets.len() == 3 {
        check_pair(table, facets[0], facets[1])?;
        check_pair(table, facets[0], facets[2])?;
        return check_pair(table, facets[1], facets[2]);
    }
    Ok(())
}

/// The facets that move `m` removes from `table`. Fails with `NoSuchTet` if there is no such tetrahedron; then at the
/// first label outside the core whose face is a boundary face (`Boundary`) or is glued to a tetrahedron that already is
/// a facet (`Repeated`); then at the first pair of facets that are not glued label by label (`NotMatched`).
pub fn legal(table: &Table, m: Move) -> Result<Pattern, MoveFault>
    ensures pattern { IfOk result (λ p. IsPattern table.now m p.facets.items) }
    ensures fault { IfErr result (λ e. moves.move_fault table.now m ≡ Some e) }
{
    if m.tet as usize >= table.rows().len() {
        return Err(MoveFault::NoSuchTet);
    }
    let mut facets = find_facets(table, &m)?;
    check_pairs(table, &facets)?;
    facets.push(own_facet(m));
    Ok(Pattern { facets })
}
