//! Accepted moves, and the first one with one of given cores.

ghost use Rattle.std.specs.Prelude.{◌≡◌, ◌<◌, ◌∷◌, [], None, length, map, find, is_some, option_map, IfSome};
ghost use Rattle.table_definitions.specs.Permutation.{four};
ghost use Rattle.move_definitions.specs.Moves.{Plays, play_fault};
ghost use Rattle.move_definitions.specs.Certificates as certificates;
ghost use Rattle.move_definitions.specs.Certificates.{moves_at, moves_with};
ghost use Rattle.move_laws.specs.Faults.{IsPattern};

use gluing_table::Table;
use pachner_moves::{Core, Move, Pattern, apply_legal, keeps_limit, legal};

/// The cores of the 4-1 moves: each vertex.
pub fn vertices() -> [Core; 4]
    ensures { result ≡ map (λ v. v ∷ []) four }
{
    [
        Core::vertex(0),
        Core::vertex(1),
        Core::vertex(2),
        Core::vertex(3),
    ]
}

/// A move that is accepted on a table, with the facets that it removes there.
#[derive(Drop)]
pub struct AcceptedMove {
    pub played: Move,
    pub pattern: Pattern,
}

impl AcceptedMove {
    /// Plays the move on `table`, on which it is accepted.
    pub fn play(&self, table: &mut Table)
        requires pattern { IsPattern table.old self.now.played self.now.pattern.facets.items }
        requires accepted { play_fault table.old self.now.played ≡ None }
        ensures { Plays table.old self.now.played table.new }
    {
        match apply_legal(table, self.played, &self.pattern) {
            Ok(_) => {}
            Err(_) => unreachable!(),
        }
    }
}

/// The move `m` with the facets that it removes, or `None` if it is not accepted on `table`.
pub fn accept(table: &Table, m: Move) -> Option<AcceptedMove>
    ensures accepted { is_some result ≡ certificates.is_accepted table.now m }
    ensures same { IfSome result (λ a. a.played ≡ m) }
    ensures pattern { IfSome result (λ a. IsPattern table.now a.played a.pattern.facets.items) }
{
    match legal(table, m) {
        Ok(pattern) if keeps_limit(table, m) => Some(AcceptedMove { played: m, pattern }),
        _ => None,
    }
}

/// Whether `m` is accepted on `table`: it is legal, and at most 1,000 tetrahedra result, so that `apply` succeeds.
pub fn is_accepted(table: &Table, m: Move) -> bool
    ensures { result ≡ certificates.is_accepted table.now m }
{
    accept(table, m).is_some()
}

/// The first accepted move at tetrahedron `tet` with one of `cores`.
fn first_at(table: &Table, tet: u32, cores: &[Core]) -> Option<AcceptedMove>
    ensures first { option_map (λ a. a.played) result
        ≡ find (certificates.is_accepted table.now) (moves_at tet cores.now) }
    ensures pattern { IfSome result (λ a. IsPattern table.now a.played a.pattern.facets.items) }
{
    for core in cores {
        let m = Move { tet, core: *core };
        if let Some(accepted) = accept(table, m) {
            return Some(accepted);
        }
    }
    None
}

/// The first accepted move of `table` with one of `cores`, by tetrahedron and then by core.
pub fn first_accepted(table: &Table, cores: &[Core]) -> Option<AcceptedMove>
    ensures first { option_map (λ a. a.played) result
        ≡ find (certificates.is_accepted table.now) (moves_with cores.now (length table.now)) }
    ensures pattern { IfSome result (λ a. IsPattern table.now a.played a.pattern.facets.items) }
{
    for tet in 0..table.len() {
        if let Some(accepted) = first_at(table, tet, cores) {
            return Some(accepted);
        }
    }
    None
}
