use perm_four::Perm4;

#[test]
fn words_have_their_worked_places(rt: HostRuntime) {
    for (index, word) in [
        (0u8, b"0123"),
        (6, b"1023"),
        (9, b"1230"),
        (13, b"2031"),
        (18, b"3012"),
        (23, b"3210"),
    ] {
        let perm = Perm4::from_word(word).expect(&rt, "a permutation");
        assert_eq!(rt; perm.index(), index, "index");
        assert!(rt; Perm4::of_index(index) == Some(perm), "of {index}");
        assert_eq!(rt; perm.word().as_slice(), word.as_slice(), "word");
    }
}

#[test]
fn a_turn_goes_there_and_back(rt: HostRuntime) {
    let turn = Perm4::new(1, 2, 3, 0).expect(&rt, "a permutation");
    assert_eq!(rt; turn.image(0), 1);
    assert_eq!(rt; turn.preimage(0), 3);
    assert!(rt; turn.is_odd());
    assert_eq!(rt; turn.inverse().word().as_slice(), b"3012".as_slice());
    assert_eq!(rt; turn.compose(turn).word().as_slice(), b"2301".as_slice());
}

#[test]
fn other_words_are_refused(rt: HostRuntime) {
    for word in [
        b"012".as_slice(),
        b"01234".as_slice(),
        b"0122".as_slice(),
        b"0124".as_slice(),
        b"/012".as_slice(),
    ] {
        assert!(rt; Perm4::from_word(word).is_none(), "refused");
    }
    assert!(rt; Perm4::new(0, 1, 2, 2).is_none());
    assert!(rt; Perm4::of_index(24).is_none());
}
