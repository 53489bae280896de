//! A sink and a source that both fail, and inputs that are cut off or too long.
use crate::running::{STEADY, answered};
use std::alloc::Global;
use std::test::Fail;
use workbench::Status;

const INPUT: &[u8] = b"tri 1\n0:1023 0:1023 0:1230 0:3012\nvec 1 1 0 0 1 0 0\nvec 1 0 0 0 0 0 0\n";

#[test]
fn the_sink_precedes_the_source(rt: HostRuntime) -> Result<(), Fail> {
    let answer = answered(rt.alloc(), &["verify"], INPUT, 1, 1, 7)?;
    assert!(rt; answer.status == Status::WriteFault);
    assert!(rt; answer.text.is_empty());
    Ok(())
}

#[test]
fn long_inputs_are_refused(rt: HostRuntime) -> Result<(), Fail> {
    let input = vec![in rt.alloc(); b'\n'; 1_048_577]?;
    for words in [&["verify"], &["surfaces"], &["info"]] {
        let answer = answered(rt.alloc(), words, &input, STEADY, STEADY, 1 << 20)?;
        assert!(rt; answer.status == Status::Input);
        assert_eq!(rt;
            answer.text.as_slice(),
            b"refused: input too-long\n".as_slice()
        );
    }
    let answer = answered(
        rt.alloc(),
        &["verify"],
        &input[1..],
        STEADY,
        STEADY,
        1 << 20,
    )?;
    assert!(rt; answer.status == Status::Input);
    assert_eq!(rt;
        answer.text.as_slice(),
        b"refused: input 1048577 1 missing-word\n".as_slice()
    );
    Ok(())
}

/// The expected line for the first bytes of a table of one row, for each length.
const CUTS: [(usize, usize, &[u8]); 17] = [
    (0, 0, b"refused: input 1 1 missing-word\n"),
    (1, 2, b"refused: input 1 1 bad-word\n"),
    (3, 3, b"refused: input 1 4 missing-word\n"),
    (4, 4, b"refused: input 1 5 missing-word\n"),
    (5, 5, b"refused: input 1 6 missing-word\n"),
    (6, 6, b"refused: input 2 1 missing-word\n"),
    (7, 11, b"refused: input 2 1 bad-word\n"),
    (12, 12, b"refused: input 2 7 missing-word\n"),
    (13, 13, b"refused: input 2 8 missing-word\n"),
    (14, 18, b"refused: input 2 8 bad-word\n"),
    (19, 19, b"refused: input 2 14 missing-word\n"),
    (20, 20, b"refused: input 2 15 missing-word\n"),
    (21, 25, b"refused: input 2 15 bad-word\n"),
    (26, 26, b"refused: input 2 21 missing-word\n"),
    (27, 27, b"refused: input 2 22 missing-word\n"),
    (28, 32, b"refused: input 2 22 bad-word\n"),
    (33, 34, b"bkaagj\n"),
];

#[test]
fn inputs_may_be_cut_at_every_byte(rt: HostRuntime) -> Result<(), Fail> {
    let table = b"tri 1\n0:1023 0:1023 0:1230 0:3012\n";
    for (least, most, line) in CUTS {
        assert!(rt; most <= 34);
        for length in least..most + 1 {
            let answer = answered(rt.alloc(), &["sig"], &table[..length], STEADY, STEADY, 7)?;
            let status = if length < 33 {
                Status::Input
            } else {
                Status::Done
            };
            assert!(rt; answer.status == status);
            assert_eq!(rt; answer.text.as_slice(), line);
        }
    }
    Ok(())
}
