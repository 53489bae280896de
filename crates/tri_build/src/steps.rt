//! The steps by which a table is made.

ghost use Rattle.std.specs.Prelude.{◌≡◌, [], None, IfOk, IfSome, IfNone};
ghost use Rattle.move_definitions.specs.Moves as moves;
ghost use Rattle.move_definitions.specs.Moves.{play_fault};
ghost use Rattle.move_definitions.specs.Certificates as certificates;
ghost use Rattle.tri_build.specs.Steps.{IsPlayedStep};

use crate::candidates::candidates;
use crate::generator::draw;
use arrayvec::ArrayVec;
use gluing_table::Table;
use out_of_memory::NoMemory;
use pachner_moves::{Facet, Move, apply_legal, inverse_on, legal};
use std::alloc::Global;
use std::marker::Model;

/// A played move, the number of tetrahedra before it, and the facets that it removed. Invariant: `tets` is at most
/// `MAX_TETS`.
#[derive(Drop)]
pub struct PlayedMove {
    pub played: Move,
    pub tets: u32,
    pub facets: ArrayVec<Facet, 4>,
}

impl Model for PlayedMove {
    ghost use Rattle.std.specs.Prelude.{◌≤◌};
    ghost use Rattle.table_definitions.specs.Table.{max_tets};
    ghost use Rattle.tri_build.specs.Steps as steps;

    ghost Value = { steps.PlayedMove };

    ghost view = { λ s. record { played = s.played; tets = s.tets; facets = s.facets.items } };

    ghost invariant = { λ s. s.tets ≤ max_tets };
}

impl PlayedMove {
    /// The inverse move, up to relabelling.
    pub fn inverse(&self) -> Move
        ensures { result ≡ moves.inverse_move self.now.tets self.now.played }
    {
        inverse_on(self.tets, self.played)
    }
}

/// Plays the move `m`, which is legal. It looks for the facets again, since the candidates are many and only their
/// moves are stored.
fn play_step(table: &mut Table, m: Move) -> PlayedMove
    requires { play_fault table.old m ≡ None }
    ensures played { result.played ≡ m }
    ensures is_step { IsPlayedStep table.old result table.new }
{
    let tets = table.len();
    match legal(table, m) {
        Ok(pattern) => match apply_legal(table, m, &pattern) {
            Ok(_) => PlayedMove {
                played: m,
                tets,
                facets: pattern.facets,
            },
            Err(_) => unreachable!(),
        },
        Err(_) => unreachable!(),
    }
}

/// Plays the move that is drawn in `state`, and returns it; `None` if there is no candidate, and then `table` is
/// unchanged.
pub fn draw_step(
    alloc: Global,
    table: &mut Table,
    state: u64,
) -> Result<Option<PlayedMove>, NoMemory>
    ensures drawn { IfOk result (λ r.
        IfSome r (λ s. certificates.drawn state (certificates.candidates table.old) ≡ Some s.played)) }
    ensures is_step { IfOk result (λ r. IfSome r (λ s. IsPlayedStep table.old s table.new)) }
    ensures none { IfOk result (λ r. IfNone r (certificates.candidates table.old ≡ [])) }
    ensures left { IfOk result (λ r. IfNone r (table.new ≡ table.old)) }
{
    let moves = candidates(alloc, table)?;
    match draw(state, &moves) {
        Some(m) => Ok(Some(play_step(table, m))),
        None => Ok(None),
    }
}
