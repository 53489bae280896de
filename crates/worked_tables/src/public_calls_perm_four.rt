//! The calls of `perm_four`, each once with its type.
use perm_four::Perm4;

#[test]
fn calls_have_their_types(_rt: HostRuntime) {
    let _new: fn(u8, u8, u8, u8) -> Option<Perm4> = Perm4::new;
    let _image: fn(Perm4, u8) -> u8 = Perm4::image;
    let _preimage: fn(Perm4, u8) -> u8 = Perm4::preimage;
    let _compose: fn(Perm4, Perm4) -> Perm4 = Perm4::compose;
    let _inverse: fn(Perm4) -> Perm4 = Perm4::inverse;
    let _is_odd: fn(Perm4) -> bool = Perm4::is_odd;
    let _index: fn(Perm4) -> u8 = Perm4::index;
    let _of_index: fn(u8) -> Option<Perm4> = Perm4::of_index;
    let _from_word: fn(&[u8]) -> Option<Perm4> = Perm4::from_word;
    let _word: fn(Perm4) -> [u8; 4] = Perm4::word;
}
