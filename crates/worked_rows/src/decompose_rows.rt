//! Rows of `decompose`.
use crate::running::{RunRow, are_answered};
use std::test::Fail;
use workbench::Status;

const ROWS: [RunRow; 9] = [
    RunRow {
        words: &["decompose"],
        input: b"sig bkaagj\nvec 3 3 1 1 2 0 0\n",
        status: Status::Done,
        text: b"tri 1\n0:1023 0:1023 0:1230 0:3012\nvec 3 3 1 1 2 0 0\ntimes 1 2\nterm 2 1 1 0 0 1 0 0\nterm 1 1 1 1 1 0 0 0\n",
    },
    RunRow {
        words: &["decompose"],
        input: b"tri 0\nvec\n",
        status: Status::Done,
        text: b"tri 0\nvec\ntimes 1 0\n",
    },
    RunRow {
        words: &["decompose"],
        input: b"sig bkaagj\n",
        status: Status::Done,
        text: b"tri 1\n0:1023 0:1023 0:1230 0:3012\n",
    },
    RunRow {
        words: &["decompose"],
        input: b"sig bkaagj\nvec 0 0 0 0 0 0 0\nvec 1 1 1 1 0 0 0\n",
        status: Status::Done,
        text: b"tri 1\n0:1023 0:1023 0:1230 0:3012\nvec 0 0 0 0 0 0 0\ntimes 1 0\nvec 1 1 1 1 0 0 0\ntimes 1 1\nterm 1 1 1 1 1 0 0 0\n",
    },
    RunRow {
        words: &["decompose", "--coords", "quad"],
        input: b"sig bkaagj\nvec 2 0 0\n",
        status: Status::Done,
        text: b"tri 1\n0:1023 0:1023 0:1230 0:3012\nvec 2 0 0\ntimes 1 1\nterm 2 1 0 0\n",
    },
    RunRow {
        words: &["decompose"],
        input: b"sig bkaagj\nvec 1 1 1 1 0 0 0\nvec 1 1 1 1 0 0\n",
        status: Status::Refused,
        text: b"refused: vector 1 length 6\n",
    },
    RunRow {
        words: &["decompose"],
        input: b"sig bkaagj\nvec 1 0 0 0 0 0 0\n",
        status: Status::Refused,
        text: b"refused: vector 0 fails 0\n",
    },
    RunRow {
        words: &["decompose", "--max-entry", "2"],
        input: b"sig bkaagj\nvec 1 1 0 0 1 0 0\nvec 3 3 1 1 2 0 0\n",
        status: Status::Large,
        text: b"refused: vector 1 large-times 0 0\n",
    },
    RunRow {
        words: &["decompose"],
        input: b"sig bkaagj\nvec x\n",
        status: Status::Input,
        text: b"refused: input 2 5 bad-word\n",
    },
];

#[test]
fn decompose_rows_are_answered(rt: HostRuntime) -> Result<(), Fail> {
    are_answered(&rt, rt.alloc(), &ROWS)
}
