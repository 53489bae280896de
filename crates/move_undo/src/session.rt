//! Sessions of moves on one table.

ghost use Rattle.std.specs.Prelude.{◌≡◌, ◌≢◌, ◌<◌, ◌≤◌, [], ◌∷◌, ◌++◌, Some, None, length, take, slice_get, vec_capacity, OnOk, OnErr, IfOk, IfErr};
ghost use Rattle.std.specs.Bool.{OnTrue, OnFalse};
ghost use Rattle.move_definitions.specs.Moves as moves;
ghost use Rattle.move_definitions.specs.Moves.{play_fault};
ghost use Rattle.move_definitions.specs.Undos as undos;
ghost use Rattle.move_definitions.specs.Sessions as sessions;
ghost use Rattle.move_undo.specs.Records.{IsPlayed};
ghost use Rattle.move_undo.specs.Faults.{IsRefusal};

use gluing_table::Table;
use out_of_memory::NoMemory;
use pachner_moves::{Move, MoveFault, Undo, apply, take_back};
use std::alloc::{AllocError, Global};
use std::marker::Model;

/// Why `play` fails.
#[derive(Clone, Copy)]
pub enum PlayFault {
    NoMemory,
    /// The move is illegal on the session's table, or exceeds the number of tetrahedra.
    Illegal(MoveFault),
}

impl From<AllocError> for PlayFault {
    ghost use Rattle.std.specs.Prelude.{◌≡◌};
    ghost use Rattle.move_undo.specs.declared.session.PlayFault.TheVariants.{NoMemory};

    ghost from_gives = { λ _ fault. fault ≡ NoMemory };

    fn from(_error: AllocError) -> PlayFault {
        PlayFault::NoMemory
    }
}

impl From<MoveFault> for PlayFault {
    ghost use Rattle.std.specs.Prelude.{◌≡◌};
    ghost use Rattle.move_undo.specs.declared.session.PlayFault.TheVariants.{Illegal};

    ghost from_gives = { λ e fault. fault ≡ Illegal e };

    fn from(fault: MoveFault) -> PlayFault {
        PlayFault::Illegal(fault)
    }
}

/// A table on which moves are played, taken back and played again. Contracts see the first table, the recorded moves,
/// and how many of them are played. Invariant: the played moves lead from the first table to `table`, the others can be
/// played from there, and there is room to play them again.
#[derive(Drop)]
pub struct Session {
    table: Table,
    // the recorded moves, the played ones first
    moves: Vec<Move>,
    // for each played move the record that takes it back
    undos: Vec<Undo>,
}

impl Model for Session {
    ghost use Rattle.move_definitions.specs.Sessions as sessions;

    ghost Value = { sessions.Session };

    ghost use Rattle.move_undo.specs.Sessions.{session_of, IsKept};

    ghost view = { session_of };

    ghost invariant = { IsKept };
}

/// Plays `m`, and returns the record that takes it back. Fails as `apply`.
fn play_on(table: &mut Table, m: Move) -> Result<Undo, MoveFault>
    ensures played { IfOk result (λ u. IsPlayed table.old m u table.new) }
    ensures fault { IfErr result (λ e. play_fault table.old m ≡ Some e) }
    ensures left { OnErr result (table.new ≡ table.old) }
{
    apply(table, m)
}

/// Plays the legal move `m`, and returns the record that takes it back.
fn replay(table: &mut Table, m: Move) -> Undo
    requires { play_fault table.old m ≡ None }
    ensures { IsPlayed table.old m result table.new }
{
    match play_on(table, m) {
        Ok(undo) => undo,
        Err(_) => unreachable!(),
    }
}

/// Records the played move `m` after the others, and drops the moves that were taken back.
fn keep(moves: &mut Vec<Move>, undos: &mut Vec<Undo>, m: Move, undo: Undo)
    requires moves { length moves.old.items < vec_capacity moves.old }
    requires undos { length moves.old.items < vec_capacity undos.old }
    requires most { length undos.old.items ≤ length moves.old.items }
    ensures moves { moves.new.items ≡ take (length undos.old.items) moves.old.items ++ m ∷ [] }
    ensures undos { undos.new.items ≡ undos.old.items ++ undo ∷ [] }
    ensures room { vec_capacity undos.new ≡ vec_capacity undos.old }
{
    moves.truncate(undos.len());
    moves.push_reserved(m);
    undos.push_reserved(undo);
}

impl Session {
    /// A session on `table` with no move played.
    pub fn new(alloc: Global, table: Table) -> Session
        ensures { result ≡ sessions.begun table }
    {
        Session {
            table,
            moves: Vec::new(alloc),
            undos: Vec::new(alloc),
        }
    }

    /// Plays `m`, and drops the moves that were taken back. Fails with `NoMemory`, also once 2^32 - 1 moves are played,
    /// or with `Illegal` as `apply`; the session is then unchanged.
    pub fn play(&mut self, m: Move) -> Result<(), PlayFault>
        ensures accepted { OnOk result (sessions.IsAccepted self.old m) }
        ensures played { OnOk result (self.new ≡ sessions.with_move self.old m) }
        ensures fault { IfErr result (λ e. e ≢ PlayFault.NoMemory → IsRefusal self.old m e) }
        ensures left { OnErr result (self.new ≡ self.old) }
    {
        if self.undos.len() >= u32::MAX as usize {
            return Err(PlayFault::NoMemory);
        }
        self.moves.reserve(1)?;
        self.undos.reserve(self.moves.len() - self.undos.len() + 1)?;
        let undo = play_on(&mut self.table, m)?;
        keep(&mut self.moves, &mut self.undos, m, undo);
        Ok(())
    }

    /// Takes the last played move back, and returns whether there is one. The table is then what it was before that
    /// move, row for row.
    pub fn undo(&mut self) -> bool
        ensures undone { OnTrue result ((0 < self.old.played) × (self.new ≡ sessions.one_less self.old)) }
        ensures nothing { OnFalse result ((self.old.played ≡ 0) × (self.new ≡ self.old)) }
    {
        let Some(undo) = self.undos.pop() else {
            return false;
        };
        take_back(&mut self.table, &undo);
        true
    }

    /// Plays again the last move taken back, and returns whether there is one.
    pub fn redo(&mut self) -> bool
        ensures redone { OnTrue result ((self.old.played < length self.old.moves)
            × (self.new ≡ sessions.one_more self.old)) }
        ensures nothing { OnFalse result ((self.old.played ≡ length self.old.moves) × (self.new ≡ self.old)) }
    {
        let next = self.undos.len();
        if next == self.moves.len() {
            return false;
        }
        let undo = replay(&mut self.table, self.moves[next]);
        self.undos.push_reserved(undo);
        true
    }

    /// The table after the played moves.
    pub fn table(&self) -> &Table
        ensures { sessions.IsTableOf self.now result.now }
    {
        &self.table
    }

    /// The number of played moves.
    pub fn played(&self) -> u32
        ensures { result ≡ self.now.played }
    {
        self.undos.len() as u32
    }

    /// The played move with index `i`, from 0.
    pub fn played_at(&self, i: u32) -> Move
        requires { i < self.now.played }
        ensures { slice_get self.now.moves i ≡ Some result }
    {
        self.moves[i as usize]
    }
}
