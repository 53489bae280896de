//! The calls of `move_undo`, each once with its type. Calls that take or return a borrow are named as they are called.
use bench_io::NoMemory;
use gluing_table::Table;
use move_undo::{PlayFault, Session, write_move};
use pachner_moves::Move;
use std::alloc::Global;

#[test]
fn calls_have_their_types(_rt: HostRuntime) {
    let _new: fn(Global, Table) -> Session = Session::new;
    let _play: fn(&mut Session, Move) -> Result<(), PlayFault> = Session::play;
    let _undo: fn(&mut Session) -> bool = Session::undo;
    let _redo: fn(&mut Session) -> bool = Session::redo;
    let _played: fn(&Session) -> u32 = Session::played;
    let _played_at: fn(&Session, u32) -> Move = Session::played_at;
    let _write_move: fn(Global, Move, &mut Vec<u8>) -> Result<(), NoMemory> = write_move;
}
