//! Rows of `group`.
use crate::running::{RunRow, are_answered};
use std::test::Fail;
use workbench::Status;

const ROWS: [RunRow; 5] = [
    RunRow {
        words: &["group"],
        input: b"sig bkaagn\nsig bkaagb\nsig bkaagj\n",
        status: Status::Done,
        text: b"table 0 class 0\ntable 1 class 1\ntable 2 class 0\nclass 0 bkaagj\nclass 1 bkaagb\n",
    },
    RunRow {
        words: &["group"],
        input: b"",
        status: Status::Done,
        text: b"",
    },
    RunRow {
        words: &["group"],
        input: b"sig bkaagj\ntri 2\n- - - -\n- - - -\ntri 3\n- - - -\n- - - -\n- - - -\n",
        status: Status::Refused,
        text: b"refused: not-connected 1 1\n",
    },
    RunRow {
        words: &["group"],
        input: b"tri 2\n- - - -\n- - - -\nsig bkaag\n",
        status: Status::Input,
        text: b"refused: signature short 5\n",
    },
    RunRow {
        words: &["group"],
        input: b"tri 0\nsig a\n",
        status: Status::Done,
        text: b"table 0 class 0\ntable 1 class 0\nclass 0 a\n",
    },
];

#[test]
fn group_rows_are_answered(rt: HostRuntime) -> Result<(), Fail> {
    are_answered(&rt, rt.alloc(), &ROWS)
}
