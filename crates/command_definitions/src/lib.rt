//! The grammar of the command line: the accepted words and their requests. The definitions are in `specs/`.
//!
//! Words: a *request* is a command with the values of its options.
#![tactic(auto)]

ghost use Rattle.command_definitions.specs.Laws.{AcceptedAreInRange};

use cone_definitions::Order;
use surface_definitions::Coords;

/// A command with the values of its options: coordinates, an order of rows, the greatest entry, a seed, a number of
/// moves.
#[derive(Clone, Copy, PartialEq, Eq)]
pub enum Request {
    Verify(Coords),
    Info,
    Surfaces(Coords, Order, u128),
    Rays(Order, u128),
    Describe(Coords),
    Lift,
    Crush,
    Play,
    Sig,
    Same,
    Group,
    Check,
    Descend,
    Make(u64, u32),
    Bulk(u64, u32),
    Decompose(Coords, u128),
    Addup(Coords),
    Cover,
    Pi1,
    Csig,
    Csame,
}

/// Lemma: let words be accepted as a request. Then its values are in range: an order is `given`, `short` or `zeros`; a
/// greatest entry is from 1 to 2^127 - 1; the coordinates of `describe` are not `quad`; `make` has at most 1,000 moves,
/// and `bulk` at most 5.
pub fn accepted_requests()
    ensures { AcceptedAreInRange }
{}
