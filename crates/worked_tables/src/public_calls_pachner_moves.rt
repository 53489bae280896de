//! The calls of `pachner_moves`, each once with its type.
use gluing_table::Table;
use pachner_moves::{Core, Move, MoveFault, Pattern, Undo, apply, inverse_move, legal, take_back};

#[test]
fn calls_have_their_types(_rt: HostRuntime) {
    let _new: fn(u8) -> Option<Core> = Core::new;
    let _has: fn(Core, u8) -> bool = Core::has;
    let _size: fn(Core) -> u8 = Core::size;
    let _legal: fn(&Table, Move) -> Result<Pattern, MoveFault> = legal;
    let _apply: fn(&mut Table, Move) -> Result<Undo, MoveFault> = apply;
    let _inverse_move: fn(&Undo) -> Move = inverse_move;
    let _take_back: fn(&mut Table, &Undo) = take_back;
}
