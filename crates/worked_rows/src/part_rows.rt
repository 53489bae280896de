//! Rows of `csig` and `csame`.
use crate::running::{RunRow, are_answered};
use std::test::Fail;
use workbench::Status;

const ROWS: [RunRow; 10] = [
    RunRow {
        words: &["csig"],
        input: b"tri 2\n- - - -\n- - - -\n",
        status: Status::Done,
        text: b"baa.baa\n",
    },
    RunRow {
        words: &["csig"],
        input: b"tri 2\n0:1023 0:1023 0:1230 0:3012\n1:1023 1:1023 1:1230 1:3012\n# tet 0 over 0 sheet 0\n# tet 1 over 0 sheet 1\n# connected no\n",
        status: Status::Done,
        text: b"bkaagj.bkaagj\n",
    },
    RunRow {
        words: &["csig"],
        input: b"tri 0\n",
        status: Status::Done,
        text: b"a\n",
    },
    RunRow {
        words: &["csame"],
        input: b"tri 2\n- - - -\n1:1023 1:1023 1:1230 1:3012\ntri 2\n0:1023 0:1023 0:1230 0:3012\n- - - -\n",
        status: Status::Done,
        text: b"same\n0 1 0123\n1 0 0123\n",
    },
    RunRow {
        words: &["csame"],
        input: b"tri 0\ntri 1\n- - - -\n",
        status: Status::Done,
        text: b"different\n",
    },
    RunRow {
        words: &["csig"],
        input: b"tri 2\n1:1023 1:1023 1:1230 1:3012\n- - - -\n",
        status: Status::Input,
        text: b"refused: table not-mutual 0 0\n",
    },
    RunRow {
        words: &["csig"],
        input: b"tri 2\n0:1023 0:1023 0:1230 0:3012\n- - - -\n",
        status: Status::Done,
        text: b"baa.bkaagj\n",
    },
    RunRow {
        words: &["csig"],
        input: b"sig cPcbbbiht\n",
        status: Status::Done,
        text: b"cPcbbbiht\n",
    },
    RunRow {
        words: &["csame"],
        input: b"sig bkaagn\nsig bkaagj\n",
        status: Status::Done,
        text: b"same\n0 0 0132\n",
    },
    RunRow {
        words: &["csame"],
        input: b"tri 0\n",
        status: Status::Input,
        text: b"refused: input 2 1 missing-word\n",
    },
];

#[test]
fn part_rows_are_answered(rt: HostRuntime) -> Result<(), Fail> {
    are_answered(&rt, rt.alloc(), &ROWS)
}
