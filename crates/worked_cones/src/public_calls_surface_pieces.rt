//! The calls of `surface_pieces`, each once with its type. Calls that take or return a borrow are named as they are
//! called.
use matching_equations::Coords;
use skeleton::Skeleton;
use std::alloc::Global;
use surface_pieces::{Pieces, PiecesFault};

#[test]
fn calls_have_their_types(_rt: HostRuntime) {
    let _build: fn(Global, &Skeleton, Coords, &[u128]) -> Result<Pieces, PiecesFault> =
        Pieces::build;
    let _components: fn(&Pieces) -> u32 = Pieces::components;
    let _two_sided: fn(&Pieces, u32) -> bool = Pieces::two_sided;
    let _orientable: fn(&Pieces, u32) -> bool = Pieces::orientable;
}
