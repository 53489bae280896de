//! Canonical traversals of small tables. The expected texts were found by trying all relabellings.

use crate::sample_tables::{BALL, read_table, table_of};
use canonical_labelling::{NotConnected, Start, walk};
use out_of_memory::Failure;
use perm_four::Perm4;
use signature_codec::spell;
use std::alloc::Global;
use std::test::Fail;

/// The text of the table of a traversal, or `None` if `word` is no permutation.
fn walked(alloc: Global, text: &[u8], tet: u32, word: &[u8]) -> Result<Vec<u8>, Fail> {
    let table = read_table(alloc, text)?;
    let mut walked = Vec::new(alloc);
    if let Some(perm) = Perm4::from_word(word) {
        if tet < table.len() {
            let walk = walk(alloc, &table, Start { tet, perm })
                .ok()
                .ok_or("no walk")?;
            walked = spell(alloc, &walk.table).ok().ok_or("no text")?;
        }
    }
    Ok(walked)
}

#[test]
fn a_walk_reaches_the_one_table(rt: HostRuntime) -> Result<(), Fail> {
    let walks: [(&[u8], u32, &[u8], &[u8]); 6] = [
        (b"bkaagn", 0, b"0123", b"bkaagn"),
        (b"bkaagn", 0, b"2031", b"bkaaok"),
        (b"cPcbbbiht", 0, b"2031", b"cPcbbbxpt"),
        (b"cPcbbbiht", 1, b"3210", b"cPcbbblmh"),
        (b"duGacb", 1, b"2031", b"dbbccf"),
        (b"duGacb", 2, b"3210", b"dfGacg"),
    ];
    for (text, tet, word, spelled) in walks {
        assert_eq!(rt; walked(rt.alloc(), text, tet, word)?.as_slice(), spelled);
    }
    Ok(())
}

#[test]
fn two_disconnected_tetrahedra_are_not_walked(rt: HostRuntime) {
    let table = table_of(&rt, rt.alloc(), &[BALL, BALL]);
    let perm = Perm4::of_index(0).expect(&rt, "the identity");
    assert_eq!(rt; table.len(), 2);
    let walked = walk(rt.alloc(), &table, Start { tet: 0, perm });
    assert!(rt; matches!(walked, Err(Failure::Fault(NotConnected { tet: 1 }))));
}
