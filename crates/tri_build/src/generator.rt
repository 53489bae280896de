//! The linear congruential generator, and what is drawn from a state.

ghost use Rattle.std.specs.Prelude.{◌≡◌};
ghost use Rattle.move_definitions.specs.Certificates as certificates;

use pachner_moves::Move;

/// The factor of the generator.
const FACTOR: u64 = 6364136223846793005;

/// The increment of the generator.
const STEP: u64 = 1442695040888963407;

/// The state after `state`, modulo 2^64.
pub fn next_state(state: u64) -> u64
    ensures { result ≡ certificates.next_state state }
{
    state.wrapping_mul(FACTOR).wrapping_add(STEP)
}

/// The move of `moves` drawn by the upper 32 bits of `state`, or `None` if `moves` is empty.
pub fn draw(state: u64, moves: &[Move]) -> Option<Move>
    ensures { result ≡ certificates.drawn state moves.now }
{
    if moves.is_empty() {
        return None;
    }
    let place = (state >> 32) % moves.len() as u64;
    Some(moves[place as usize])
}
