//! Rows of `crush`.
use crate::running::{RunRow, are_answered};
use std::test::Fail;
use workbench::Status;

const ROWS: [RunRow; 8] = [
    RunRow {
        words: &["crush"],
        input: b"sig bkaagj\nvec 1 1 0 0 1 0 0\n",
        status: Status::Done,
        text: b"tri 0\n",
    },
    RunRow {
        words: &["crush"],
        input: b"sig bkaagj\nvec 1 1 1 1 0 0 0\n",
        status: Status::Done,
        text: b"tri 1\n0:1023 0:1023 0:1230 0:3012\n",
    },
    RunRow {
        words: &["crush"],
        input: b"sig bkaagj\nvec 1 0 0 0 0 0 0\n",
        status: Status::Refused,
        text: b"refused: vector 0 fails 0\n",
    },
    RunRow {
        words: &["crush"],
        input: b"tri 2\n1:0123 1:0123 - -\n0:0123 0:0123 - -\nvec 1 1 0 0 0 0 0 0 0 0 0 1 0 0\n",
        status: Status::Done,
        text: b"tri 1\n0:1023 0:1023 - -\n",
    },
    RunRow {
        words: &["crush"],
        input: b"sig bkaagj\n",
        status: Status::Input,
        text: b"refused: input 2 1 missing-word\n",
    },
    RunRow {
        words: &["crush"],
        input: b"sig bkaagj\nvec 1 1 0 0 1 0 0\nvec 1 1 1 1 0 0 0\n",
        status: Status::Input,
        text: b"refused: input 3 1 extra-word\n",
    },
    RunRow {
        words: &["crush"],
        input: b"sig bkaagj\nvec 0 0 1 1 0 1 1\n",
        status: Status::Refused,
        text: b"refused: vector 0 clash 5 6\n",
    },
    RunRow {
        words: &["crush"],
        input: b"sig bkaagj\nvec 1 1 0 0 1 0\n",
        status: Status::Refused,
        text: b"refused: vector 0 length 6\n",
    },
];

#[test]
fn crush_rows_are_answered(rt: HostRuntime) -> Result<(), Fail> {
    are_answered(&rt, rt.alloc(), &ROWS)
}
