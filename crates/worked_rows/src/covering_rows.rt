//! Rows of `cover` and `pi1`.
use crate::running::{RunRow, STEADY, answered, are_answered};
use std::test::Fail;
use workbench::Status;

const ROWS: [RunRow; 9] = [
    RunRow {
        words: &["cover"],
        input: b"sig bkaaid\n",
        status: Status::Done,
        text: b"tri 2\n1:1203 1:2013 1:0231 1:0312\n0:1203 0:2013 0:0231 0:0312\n# tet 0 over 0 sheet 0\n# tet 1 over 0 sheet 1\n# connected yes\n",
    },
    RunRow {
        words: &["cover"],
        input: b"sig bkaagj\n",
        status: Status::Done,
        text: b"tri 2\n0:1023 0:1023 0:1230 0:3012\n1:1023 1:1023 1:1230 1:3012\n# tet 0 over 0 sheet 0\n# tet 1 over 0 sheet 1\n# connected no\n",
    },
    RunRow {
        words: &["cover"],
        input: b"tri 0\n",
        status: Status::Done,
        text: b"tri 0\n# connected yes\n",
    },
    RunRow {
        words: &["cover"],
        input: b"sig bkaagjx\n",
        status: Status::Input,
        text: b"refused: signature trailing 6\n",
    },
    RunRow {
        words: &["pi1"],
        input: b"sig cPcbbbiht\n",
        status: Status::Done,
        text: b"generators 3\ngenerator 1 face 1 turns no\ngenerator 2 face 2 turns no\ngenerator 3 face 3 turns no\nrelators 2\nrelator 0 2 -1 3 1 -3\nrelator 1 1 2 -3 -2\n",
    },
    RunRow {
        words: &["pi1"],
        input: b"sig bkaaid\n",
        status: Status::Done,
        text: b"generators 2\ngenerator 1 face 0 turns yes\ngenerator 2 face 1 turns yes\nrelators 1\nrelator 0 2 -1 -2 1 1 2\n",
    },
    RunRow {
        words: &["pi1"],
        input: b"tri 2\n- - - -\n- - - -\n",
        status: Status::Refused,
        text: b"refused: not-connected 0 1\n",
    },
    RunRow {
        words: &["pi1"],
        input: b"tri 0\n",
        status: Status::Done,
        text: b"generators 0\nrelators 0\n",
    },
    RunRow {
        words: &["pi1"],
        input: b"tri 1\n0:1032 0:1032 - -\n",
        status: Status::Refused,
        text: b"refused: invalid-edge 3\n",
    },
];

#[test]
fn covering_rows_are_answered(rt: HostRuntime) -> Result<(), Fail> {
    are_answered(&rt, rt.alloc(), &ROWS)
}

/// Twice 501 tetrahedra are more than a table may have.
#[test]
fn a_cover_that_is_too_large_is_refused(rt: HostRuntime) -> Result<(), Fail> {
    let mut input = Vec::new(rt.alloc());
    input.extend_from_slice(b"tri 501\n")?;
    for _ in 0..501 {
        input.extend_from_slice(b"- - - -\n")?;
    }
    let answer = answered(rt.alloc(), &["cover"], &input, STEADY, STEADY, 1 << 16)?;
    assert!(rt; answer.status == Status::Refused);
    assert_eq!(rt;
        answer.text.as_slice(),
        b"refused: cover too-many\n".as_slice()
    );
    Ok(())
}
