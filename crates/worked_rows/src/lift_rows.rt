//! Rows of `lift`.
use crate::running::{RunRow, are_answered};
use std::test::Fail;
use workbench::Status;

const ROWS: [RunRow; 8] = [
    RunRow {
        words: &["lift"],
        input: b"sig cPcbbbiht\nvec 2 0 0 0 0 1\n",
        status: Status::Refused,
        text: b"refused: vector 0 no-lift 0\n",
    },
    RunRow {
        words: &["lift"],
        input: b"sig bkaagj\nvec 1 0 0\n",
        status: Status::Done,
        text: b"vec 1 1 0 0 1 0 0\n",
    },
    RunRow {
        words: &["lift"],
        input: b"sig bkaagj\nvec 0 1 1\n",
        status: Status::Refused,
        text: b"refused: vector 0 clash 1 2\n",
    },
    RunRow {
        words: &["lift"],
        input: b"sig bkaagj\nvec 170141183460469231731687303715884105727 0 0\n",
        status: Status::Large,
        text: b"refused: vector 0 large-lift\n",
    },
    RunRow {
        words: &["lift"],
        input: b"sig cPcbbbiht\n",
        status: Status::Done,
        text: b"",
    },
    RunRow {
        words: &["lift"],
        input: b"sig bkaagj\nvec 1 0 0\nvec 0 1 1\n",
        status: Status::Refused,
        text: b"refused: vector 1 clash 1 2\n",
    },
    RunRow {
        words: &["lift"],
        input: b"sig bkaagj\nvec 1 0 0\nvec 2 0 0\n",
        status: Status::Done,
        text: b"vec 1 1 0 0 1 0 0\nvec 2 2 0 0 2 0 0\n",
    },
    RunRow {
        words: &["lift"],
        input: b"sig bkaagj\nvec 1 0\n",
        status: Status::Refused,
        text: b"refused: vector 0 length 2\n",
    },
];

#[test]
fn lift_rows_are_answered(rt: HostRuntime) -> Result<(), Fail> {
    are_answered(&rt, rt.alloc(), &ROWS)
}
