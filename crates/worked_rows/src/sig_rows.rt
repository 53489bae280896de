//! Rows of `sig`.
use crate::running::{RunRow, are_answered};
use std::test::Fail;
use workbench::Status;

const ROWS: [RunRow; 24] = [
    RunRow {
        words: &["sig"],
        input: b"sig bkaagn\n",
        status: Status::Done,
        text: b"bkaagj\n",
    },
    RunRow {
        words: &["sig"],
        input: b"tri 2\n- - - -\n- - - -\n",
        status: Status::Refused,
        text: b"refused: not-connected 0 1\n",
    },
    RunRow {
        words: &["sig"],
        input: b"tri 0\n",
        status: Status::Done,
        text: b"a\n",
    },
    RunRow {
        words: &["sig"],
        input: b"sig bkaag\n",
        status: Status::Input,
        text: b"refused: signature short 5\n",
    },
    RunRow {
        words: &["sig"],
        input: b"sig bkaagjx\n",
        status: Status::Input,
        text: b"refused: signature trailing 6\n",
    },
    RunRow {
        words: &["sig"],
        input: b"sig blaagj\n",
        status: Status::Input,
        text: b"refused: signature bad-type 1\n",
    },
    RunRow {
        words: &["sig"],
        input: b"sig bAaagj\n",
        status: Status::Input,
        text: b"refused: signature leftover 1\n",
    },
    RunRow {
        words: &["sig"],
        input: b"sig bkbagj\n",
        status: Status::Input,
        text: b"refused: signature destination 2\n",
    },
    RunRow {
        words: &["sig"],
        input: b"sig bkaayj\n",
        status: Status::Input,
        text: b"refused: signature gluing 4\n",
    },
    RunRow {
        words: &["sig"],
        input: b"sig bkaaga\n",
        status: Status::Input,
        text: b"refused: signature face-taken 5\n",
    },
    RunRow {
        words: &["sig"],
        input: b"sig cQc\n",
        status: Status::Input,
        text: b"refused: signature unreached\n",
    },
    RunRow {
        words: &["sig"],
        input: b"tri 1\n0:3120 0:1230 0:3012 0:3120\n",
        status: Status::Done,
        text: b"bkaagj\n",
    },
    RunRow {
        words: &["sig"],
        input: b"sig -\n",
        status: Status::Input,
        text: b"refused: signature short 1\n",
    },
    RunRow {
        words: &["sig"],
        input: b"sig -a\n",
        status: Status::Input,
        text: b"refused: signature width 1\n",
    },
    RunRow {
        words: &["sig"],
        input: b"sig -b\n",
        status: Status::Input,
        text: b"refused: signature short 2\n",
    },
    RunRow {
        words: &["sig"],
        input: b"sig -b9\n",
        status: Status::Input,
        text: b"refused: signature width 1\n",
    },
    RunRow {
        words: &["sig"],
        input: b"sig -cba\n",
        status: Status::Input,
        text: b"refused: signature width 1\n",
    },
    RunRow {
        words: &["sig"],
        input: b"sig -c-a\n",
        status: Status::Input,
        text: b"refused: signature width 1\n",
    },
    RunRow {
        words: &["sig"],
        input: b"sig -d\n",
        status: Status::Input,
        text: b"refused: signature too-many\n",
    },
    RunRow {
        words: &["sig"],
        input: b"sig -c+p\n",
        status: Status::Input,
        text: b"refused: signature too-many\n",
    },
    RunRow {
        words: &["sig"],
        input: b"sig -cOp\n",
        status: Status::Input,
        text: b"refused: signature short 4\n",
    },
    RunRow {
        words: &["sig"],
        input: b"tri 2\n1:1203 1:2013 1:0231 1:0312\n0:1203 0:2013 0:0231 0:0312\n# tet 0 over 0 sheet 0\n# tet 1 over 0 sheet 1\n# connected yes\n",
        status: Status::Done,
        text: b"cPcbbbiht\n",
    },
    RunRow {
        words: &["sig"],
        input: b"tri 1\n0:1023 0:1023 0:1230 0:3012\nvec 1\n",
        status: Status::Input,
        text: b"refused: input 3 1 extra-word\n",
    },
    RunRow {
        words: &["sig"],
        input: b"tri 63\n- - - -\n- - - -\n- - - -\n- - - -\n- - - -\n- - - -\n- - - -\n- - - -\n- - - -\n- - - -\n- - - -\n- - - -\n- - - -\n- - - -\n- - - -\n- - - -\n- - - -\n- - - -\n- - - -\n- - - -\n- - - -\n- - - -\n- - - -\n- - - -\n- - - -\n- - - -\n- - - -\n- - - -\n- - - -\n- - - -\n- - - -\n- - - -\n- - - -\n- - - -\n- - - -\n- - - -\n- - - -\n- - - -\n- - - -\n- - - -\n- - - -\n- - - -\n- - - -\n- - - -\n- - - -\n- - - -\n- - - -\n- - - -\n- - - -\n- - - -\n- - - -\n- - - -\n- - - -\n- - - -\n- - - -\n- - - -\n- - - -\n- - - -\n- - - -\n- - - -\n- - - -\n- - - -\n- - - -\n",
        status: Status::Refused,
        text: b"refused: not-connected 0 1\n",
    },
];

#[test]
fn sig_rows_are_answered(rt: HostRuntime) -> Result<(), Fail> {
    are_answered(&rt, rt.alloc(), &ROWS)
}
