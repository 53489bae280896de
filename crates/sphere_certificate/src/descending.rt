//! Simplifies a table by 4-1 and 3-2 moves, until it is the standard sphere or none is accepted.

ghost use Rattle.std.specs.Prelude.{◌≡◌, ◌≤◌, ◌+◌, ◌⊎◌, ◌↔◌, true, length, Some, None, option_map, MatchOption, IsTrue, IfSome, IfOk, IfErr, OnOk};
ghost use Rattle.out_of_memory.specs.Failures.{IfFault};
ghost use Rattle.table_definitions.specs.Places.{IsConnected, IsLeastUnreached};
ghost use Rattle.move_definitions.specs.Certificates as certificates;
ghost use Rattle.move_definitions.specs.Certificates.{IsStandard, IsCertificate};
ghost use Rattle.move_laws.specs.Faults.{IsPattern};
ghost use Rattle.certificate_definitions.specs.Answers.{IsDescended};

use crate::accepted::{AcceptedMove, first_accepted, vertices};
use crate::checking::is_sphere;
use canonical_labelling::{NotConnected, WalkFault, signature};
use gluing_table::Table;
use out_of_memory::{Failure, NoMemory};
use pachner_moves::{Core, Move};
use std::alloc::Global;

/// The result of `descend`: whether it reached the standard sphere, its moves, and the table at which it ended.
#[derive(Drop)]
pub struct Descent {
    pub reached: bool,
    pub moves: Vec<Move>,
    pub table: Table,
}

/// Whether `table` is isomorphic to the standard sphere, which has one tetrahedron.
fn is_standard(alloc: Global, table: &Table) -> Result<bool, NoMemory>
    ensures { IfOk result (λ standard. IsTrue standard ↔ IsStandard table.now) }
{
    if table.len() != 1 {
        return Ok(false);
    }
    match signature(alloc, table) {
        Ok(text) => Ok(is_sphere(&text)),
        Err(Failure::Fault(_)) => Ok(false),
        Err(Failure::NoMemory) => Err(NoMemory),
    }
}

/// The first accepted 4-1 move of `table`, otherwise its first accepted 3-2 move.
fn descent_move(table: &Table) -> Option<AcceptedMove>
    ensures first { option_map (λ a. a.played) result ≡ certificates.descent_move table.now }
    ensures pattern { IfSome result (λ a. IsPattern table.now a.played a.pattern.facets.items) }
{
    match first_accepted(table, &vertices()) {
        Some(accepted) => Some(accepted),
        None => first_accepted(table, &Core::edges()),
    }
}

/// The next move of a descent at `table`, or `None` if it is `standard` or has none.
fn next_move(table: &Table, standard: bool) -> Option<AcceptedMove>
    requires { IsTrue standard ↔ IsStandard table.now }
    ensures next { MatchOption result (IsStandard table.now ⊎ (certificates.descent_move table.now ≡ None))
        (λ a. (IsStandard table.now → ⊥) × (certificates.descent_move table.now ≡ Some a.played)) }
    ensures pattern { IfSome result (λ a. IsPattern table.now a.played a.pattern.facets.items) }
{
    if standard {
        return None;
    }
    descent_move(table)
}

/// Simplifies a copy of `table`.
fn descent_of(alloc: Global, table: &Table) -> Result<Descent, NoMemory>
    ensures descent { IfOk result (λ d.
        IsDescended table.now (record { reached = d.reached; moves = d.moves.items; table = d.table })) }
    ensures certificate { IfOk result (λ d. d.reached ≡ true → IsCertificate table.now d.moves.items) }
    ensures fewer { IfOk result (λ d. length d.table + length d.moves.items ≤ length table.now) }
{
    let mut last = table.copy(alloc)?;
    let mut moves = Vec::new(alloc);
    let mut reached = is_standard(alloc, &last)?;
    while let Some(next) = next_move(&last, reached) {
        next.play(&mut last);
        moves.push(next.played)?;
        reached = is_standard(alloc, &last)?;
    }
    Ok(Descent {
        reached,
        moves,
        table: last,
    })
}

/// Simplifies a copy of `table` until it is isomorphic to the standard sphere or has no such move. Each step plays the
/// first accepted 4-1 move, by tetrahedron and vertex, otherwise the first accepted 3-2 move, by tetrahedron and edge.
/// Fails with `NotConnected`, which names the least tetrahedron of `table` not reached from tetrahedron 0.
pub fn descend(alloc: Global, table: &Table) -> Result<Descent, WalkFault>
    ensures descent { IfOk result (λ d.
        IsDescended table.now (record { reached = d.reached; moves = d.moves.items; table = d.table })) }
    ensures certificate { IfOk result (λ d. d.reached ≡ true → IsCertificate table.now d.moves.items) }
    ensures fewer { IfOk result (λ d. length d.table + length d.moves.items ≤ length table.now) }
    ensures connected { OnOk result (IsConnected table.now) }
    ensures fault { IfErr result (λ e. IfFault e (λ f. IsLeastUnreached table.now f.tet)) }
{
    if let Some(tet) = table.unreached(alloc)? {
        return Err(Failure::Fault(NotConnected { tet }));
    }
    let descent = descent_of(alloc, table)?;
    Ok(descent)
}
