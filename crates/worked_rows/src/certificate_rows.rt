//! Rows of `check` and `descend`.
use crate::running::{RunRow, are_answered};
use std::test::Fail;
use workbench::Status;

const ROWS: [RunRow; 13] = [
    RunRow {
        words: &["check"],
        input: b"sig bkaagj\n",
        status: Status::Done,
        text: b"accepted\n",
    },
    RunRow {
        words: &["check"],
        input: b"sig bkaagb\n",
        status: Status::Refused,
        text: b"refused: check not-standard bkaagb\n",
    },
    RunRow {
        words: &["check"],
        input: b"sig bkaagj\n14 0\n41 0 3\n23 0 0\n",
        status: Status::Refused,
        text: b"refused: check illegal 3 repeated 3\n",
    },
    RunRow {
        words: &["check"],
        input: b"tri 3\n1:3120 1:3120 1:3120 2:1032\n2:0123 0:3120 0:3120 0:3120\n1:0123 2:0321 0:1032 2:0321\n23 1 0\n41 3 2\n",
        status: Status::Done,
        text: b"accepted\n",
    },
    RunRow {
        words: &["descend"],
        input: b"tri 4\n1:0123 2:1023 3:1203 1:0123\n0:0123 2:0123 3:0213 0:0123\n0:1023 1:0123 3:0123 3:1203\n0:2013 1:0213 2:0123 2:2013\n",
        status: Status::Done,
        text: b"reached 1\n41 0 3\ntri 1\n0:3120 0:1230 0:3012 0:3120\n",
    },
    RunRow {
        words: &["descend"],
        input: b"sig bkaagb\n",
        status: Status::Done,
        text: b"stuck 0\ntri 1\n0:1023 0:1023 0:0132 0:0132\n",
    },
    RunRow {
        words: &["check"],
        input: b"tri 2\n- - - -\n- - - -\n",
        status: Status::Refused,
        text: b"refused: not-connected 0 1\n",
    },
    RunRow {
        words: &["check"],
        input: b"sig bkaagj\n14 0\n41 0 0\n",
        status: Status::Refused,
        text: b"refused: check illegal 2 not-matched 1 3\n",
    },
    RunRow {
        words: &["check"],
        input: b"sig bkaagj\n14 7\n",
        status: Status::Refused,
        text: b"refused: check illegal 1 no-such-tet\n",
    },
    RunRow {
        words: &["check"],
        input: b"sig bkaagj\nundo\n",
        status: Status::Input,
        text: b"refused: input 2 1 bad-word\n",
    },
    RunRow {
        words: &["descend"],
        input: b"tri 0\n",
        status: Status::Done,
        text: b"stuck 0\ntri 0\n",
    },
    RunRow {
        words: &["descend"],
        input: b"tri 2\n- - - -\n- - - -\n",
        status: Status::Refused,
        text: b"refused: not-connected 0 1\n",
    },
    RunRow {
        words: &["descend"],
        input: b"sig bkaagj\n14 0\n",
        status: Status::Input,
        text: b"refused: input 2 1 extra-word\n",
    },
];

#[test]
fn certificate_rows_are_answered(rt: HostRuntime) -> Result<(), Fail> {
    are_answered(&rt, rt.alloc(), &ROWS)
}
