//! Rows of `addup`.
use crate::running::{RunRow, are_answered};
use std::test::Fail;
use workbench::Status;

const ROWS: [RunRow; 16] = [
    RunRow {
        words: &["addup"],
        input: b"tri 1\n0:1023 0:1023 0:1230 0:3012\nvec 3 3 1 1 2 0 0\ntimes 1 2\nterm 2 1 1 0 0 1 0 0\nterm 1 1 1 1 1 0 0 0\n",
        status: Status::Done,
        text: b"accepted\n",
    },
    RunRow {
        words: &["addup"],
        input: b"tri 1\n0:1023 0:1023 0:1230 0:3012\nvec 3 3 1 1 2 0 0\ntimes 2 2\nterm 2 1 1 0 0 1 0 0\nterm 1 1 1 1 1 0 0 0\n",
        status: Status::Refused,
        text: b"refused: vector 0 not-equal 0\n",
    },
    RunRow {
        words: &["addup"],
        input: b"tri 1\n0:1023 0:1023 0:1230 0:3012\nvec 3 3 1 1 2 0 0\ntimes 0 2\nterm 2 1 1 0 0 1 0 0\nterm 1 1 1 1 1 0 0 0\n",
        status: Status::Refused,
        text: b"refused: vector 0 zero-times\n",
    },
    RunRow {
        words: &["addup"],
        input: b"sig bkaagj\n",
        status: Status::Done,
        text: b"accepted\n",
    },
    RunRow {
        words: &["addup"],
        input: b"tri 0\nvec\ntimes 7 1\nterm 5\n",
        status: Status::Done,
        text: b"accepted\n",
    },
    RunRow {
        words: &["addup", "--coords", "quad"],
        input: b"sig bkaagj\nvec 2 0 0\ntimes 1 2\nterm 2 1 0 0\nterm 0 1 0 0\n",
        status: Status::Done,
        text: b"accepted\n",
    },
    RunRow {
        words: &["addup"],
        input: b"sig bkaagj\nvec 1 0 0 0 0 0 0\ntimes 0 1\nterm 1 1\n",
        status: Status::Refused,
        text: b"refused: vector 0 fails 0\n",
    },
    RunRow {
        words: &["addup"],
        input: b"sig bkaagj\nvec 3 3 1 1 2 0 0\ntimes 0 2\nterm 2 1 1 0 0 1 0 0\nterm 1 1 1\n",
        status: Status::Refused,
        text: b"refused: vector 0 term 1 length 2\n",
    },
    RunRow {
        words: &["addup"],
        input: b"sig bkaagj\nvec 3 3 1 1 2 0 0\ntimes 0 1\nterm 1 0 0 1 1 0 1 1\n",
        status: Status::Refused,
        text: b"refused: vector 0 term 0 clash 5 6\n",
    },
    RunRow {
        words: &["addup"],
        input: b"sig bkaagj\nvec 3 3 1 1 2 0 0\ntimes 1 1\nterm 0 170141183460469231731687303715884105727 170141183460469231731687303715884105727 170141183460469231731687303715884105727 0 170141183460469231731687303715884105727 0 0\n",
        status: Status::Large,
        text: b"refused: vector 0 term 0 large 4\n",
    },
    RunRow {
        words: &["addup"],
        input: b"sig bkaagj\nvec 3 3 1 1 2 0 0\ntimes 1 2\nterm 2 1 1 0 0 1 0 0\nterm 1 1 1 1 1 0 0 0\nvec 2 2 0 0 2 0 0\ntimes 170141183460469231731687303715884105727 0\n",
        status: Status::Large,
        text: b"refused: vector 1 large-equation 0\n",
    },
    RunRow {
        words: &["addup"],
        input: b"sig bkaagj\nvec 3 3 1 1 2 0 0\ntimes 1 2\nterm 2 1 1 0 0 1 0 0\nterm 1 1 1 1 1 0 0 0\nvec 3 3 1 1 2 0 0\ntimes 1 1\nterm 2 1 1 0 0 1 0 0\n",
        status: Status::Refused,
        text: b"refused: vector 1 not-equal 0\n",
    },
    RunRow {
        words: &["addup"],
        input: b"sig bkaagj\nvec 3 3 1 1 2 0 0\ntimes 1 10001\n",
        status: Status::Input,
        text: b"refused: input 3 9 too-wide\n",
    },
    RunRow {
        words: &["addup"],
        input: b"sig bkaagj\nvec 3 3 1 1 2 0 0\ntimes 1 2\nterm 2 1 1 0 0 1 0 0\n",
        status: Status::Input,
        text: b"refused: input 5 1 missing-word\n",
    },
    RunRow {
        words: &["addup"],
        input: b"sig bkaagj\nvec 3 3 1 1 2 0 0\ntimes 1 0\nterm 2 1 1 0 0 1 0 0\nterm 1 1 1 1 1 0 0 0\n",
        status: Status::Input,
        text: b"refused: input 4 1 bad-word\n",
    },
    RunRow {
        words: &["addup"],
        input: b"sig bkaagj\nvec 3 3 1 1 2 0 0\nvec 3 3 1 1 2 0 0\n",
        status: Status::Input,
        text: b"refused: input 3 1 bad-word\n",
    },
];

#[test]
fn addup_rows_are_answered(rt: HostRuntime) -> Result<(), Fail> {
    are_answered(&rt, rt.alloc(), &ROWS)
}
