//! Rows of `rays`.
use crate::running::{RunRow, are_answered};
use std::test::Fail;
use workbench::Status;

const ROWS: [RunRow; 15] = [
    RunRow {
        words: &["rays"],
        input: b"cone 2 1\n2 -1\n",
        status: Status::Done,
        text: b"# rays 1\nvec 1 2\n",
    },
    RunRow {
        words: &["rays", "--max-entry", "1"],
        input: b"cone 2 1\n2 -1\n",
        status: Status::Large,
        text: b"refused: large step 0 row 0 value 1 0\n",
    },
    RunRow {
        words: &["rays", "--max-entry", "2"],
        input: b"cone 3 2\n1 -2 0\n0 1 -2\n",
        status: Status::Large,
        text: b"refused: large step 1 row 1 pair 2 1 0 and 0 0 1\n",
    },
    RunRow {
        words: &["rays", "--max-entry", "4"],
        input: b"cone 3 2\n1 -2 0\n0 1 -2\n",
        status: Status::Done,
        text: b"# rays 1\nvec 4 2 1\n",
    },
    RunRow {
        words: &["rays"],
        input: b"cone 8 7\n1 -1000000 0 0 0 0 0 0\n0 1 -1000000 0 0 0 0 0\n0 0 1 -1000000 0 0 0 0\n0 0 0 1 -1000000 0 0 0\n0 0 0 0 1 -1000000 0 0\n0 0 0 0 0 1 -1000000 0\n0 0 0 0 0 0 1 -1000000\n",
        status: Status::Large,
        text: b"refused: large step 6 row 6 pair 1000000000000000000000000000000000000 1000000000000000000000000000000 1000000000000000000000000 1000000000000000000 1000000000000 1000000 1 0 and 0 0 0 0 0 0 0 1\n",
    },
    RunRow {
        words: &["rays"],
        input: b"cone 1 1\n1000001\n",
        status: Status::Input,
        text: b"refused: input 2 1 too-wide\n",
    },
    RunRow {
        words: &["rays"],
        input: b"cone 0 3\n",
        status: Status::Done,
        text: b"# rays 0\n",
    },
    RunRow {
        words: &["rays", "--order", "zeros", "--max-entry", "2"],
        input: b"cone 3 2\n1 -2 0\n0 1 -2\n",
        status: Status::Large,
        text: b"refused: large step 1 row 0 value 0 2 1\n",
    },
    RunRow {
        words: &["rays", "--order", "zeros", "--max-entry", "4"],
        input: b"cone 3 2\n1 -2 0\n0 1 -2\n",
        status: Status::Done,
        text: b"# rays 1\nvec 4 2 1\n",
    },
    RunRow {
        words: &["rays", "--order", "short", "--max-entry", "1"],
        input: b"cone 3 2\n1 1 -1\n2 -1 0\n",
        status: Status::Large,
        text: b"refused: large step 0 row 1 value 1 0 0\n",
    },
    RunRow {
        words: &["rays", "--order", "given", "--max-entry", "1"],
        input: b"cone 3 2\n1 1 -1\n2 -1 0\n",
        status: Status::Large,
        text: b"refused: large step 1 row 1 value 1 0 1\n",
    },
    RunRow {
        words: &["rays"],
        input: b"cone 10001 0\n",
        status: Status::Input,
        text: b"refused: input 1 6 too-wide\n",
    },
    RunRow {
        words: &["rays"],
        input: b"cone 1 0\nvec\n",
        status: Status::Input,
        text: b"refused: input 2 1 extra-word\n",
    },
    RunRow {
        words: &["rays"],
        input: b"cone 1 0\n",
        status: Status::Done,
        text: b"# rays 1\nvec 1\n",
    },
    RunRow {
        words: &["rays"],
        input: b"cone 1 1\n-0\n",
        status: Status::Done,
        text: b"# rays 1\nvec 1\n",
    },
];

#[test]
fn rays_rows_are_answered(rt: HostRuntime) -> Result<(), Fail> {
    are_answered(&rt, rt.alloc(), &ROWS)
}
