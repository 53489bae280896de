//! Rows of `surfaces`.
use crate::running::{RunRow, are_answered};
use std::test::Fail;
use workbench::Status;

const ROWS: [RunRow; 31] = [
    RunRow {
        words: &["surfaces"],
        input: b"sig bkaagj\n",
        status: Status::Done,
        text: b"# surfaces 2\nvec 1 1 0 0 1 0 0\nvec 1 1 1 1 0 0 0\n",
    },
    RunRow {
        words: &["surfaces"],
        input: b"tri 1\n0:1023 0:1023 0:1230 0:3012\n",
        status: Status::Done,
        text: b"# surfaces 2\nvec 1 1 0 0 1 0 0\nvec 1 1 1 1 0 0 0\n",
    },
    RunRow {
        words: &["surfaces"],
        input: b"sig bkaagb\n",
        status: Status::Done,
        text: b"# surfaces 3\nvec 0 0 0 0 1 0 0\nvec 0 0 1 1 0 0 0\nvec 1 1 0 0 0 0 0\n",
    },
    RunRow {
        words: &["surfaces"],
        input: b"tri 0\n",
        status: Status::Done,
        text: b"# surfaces 0\n",
    },
    RunRow {
        words: &["surfaces"],
        input: b"tri 1\n- - - -\n",
        status: Status::Done,
        text: b"# surfaces 7\nvec 0 0 0 0 0 0 1\nvec 0 0 0 0 0 1 0\nvec 0 0 0 0 1 0 0\nvec 0 0 0 1 0 0 0\nvec 0 0 1 0 0 0 0\nvec 0 1 0 0 0 0 0\nvec 1 0 0 0 0 0 0\n",
    },
    RunRow {
        words: &["surfaces", "--max-entry", "1"],
        input: b"sig bkaagj\n",
        status: Status::Done,
        text: b"# surfaces 2\nvec 1 1 0 0 1 0 0\nvec 1 1 1 1 0 0 0\n",
    },
    RunRow {
        words: &["surfaces"],
        input: b"sig bkaaid\n",
        status: Status::Done,
        text: b"# surfaces 1\nvec 1 1 1 1 0 0 0\n",
    },
    RunRow {
        words: &["surfaces"],
        input: b"sig cPcbbbiht\n",
        status: Status::Done,
        text: b"# surfaces 1\nvec 1 1 1 1 0 0 0 1 1 1 1 0 0 0\n",
    },
    RunRow {
        words: &["surfaces"],
        input: b"tri 2\n- - - -\n- - - -\n",
        status: Status::Done,
        text: b"# surfaces 14\nvec 0 0 0 0 0 0 0 0 0 0 0 0 0 1\nvec 0 0 0 0 0 0 0 0 0 0 0 0 1 0\nvec 0 0 0 0 0 0 0 0 0 0 0 1 0 0\nvec 0 0 0 0 0 0 0 0 0 0 1 0 0 0\nvec 0 0 0 0 0 0 0 0 0 1 0 0 0 0\nvec 0 0 0 0 0 0 0 0 1 0 0 0 0 0\nvec 0 0 0 0 0 0 0 1 0 0 0 0 0 0\nvec 0 0 0 0 0 0 1 0 0 0 0 0 0 0\nvec 0 0 0 0 0 1 0 0 0 0 0 0 0 0\nvec 0 0 0 0 1 0 0 0 0 0 0 0 0 0\nvec 0 0 0 1 0 0 0 0 0 0 0 0 0 0\nvec 0 0 1 0 0 0 0 0 0 0 0 0 0 0\nvec 0 1 0 0 0 0 0 0 0 0 0 0 0 0\nvec 1 0 0 0 0 0 0 0 0 0 0 0 0 0\n",
    },
    RunRow {
        words: &["surfaces"],
        input: b"tri 1\n0:1032 0:1032 - -\n",
        status: Status::Done,
        text: b"# surfaces 5\nvec 0 0 0 0 0 0 1\nvec 0 0 0 0 0 1 0\nvec 0 0 0 0 1 0 0\nvec 0 0 1 1 0 0 0\nvec 1 1 0 0 0 0 0\n",
    },
    RunRow {
        words: &["surfaces", "--max-entry=0001"],
        input: b"sig bkaagj\n",
        status: Status::Done,
        text: b"# surfaces 2\nvec 1 1 0 0 1 0 0\nvec 1 1 1 1 0 0 0\n",
    },
    RunRow {
        words: &["surfaces", "--order", "short"],
        input: b"sig bkaagj\n",
        status: Status::Done,
        text: b"# surfaces 2\nvec 1 1 0 0 1 0 0\nvec 1 1 1 1 0 0 0\n",
    },
    RunRow {
        words: &["surfaces", "--order", "short"],
        input: b"sig bkaagb\n",
        status: Status::Done,
        text: b"# surfaces 3\nvec 0 0 0 0 1 0 0\nvec 0 0 1 1 0 0 0\nvec 1 1 0 0 0 0 0\n",
    },
    RunRow {
        words: &["surfaces", "--order", "short"],
        input: b"sig bkaaid\n",
        status: Status::Done,
        text: b"# surfaces 1\nvec 1 1 1 1 0 0 0\n",
    },
    RunRow {
        words: &["surfaces", "--order", "short"],
        input: b"sig cPcbbbiht\n",
        status: Status::Done,
        text: b"# surfaces 1\nvec 1 1 1 1 0 0 0 1 1 1 1 0 0 0\n",
    },
    RunRow {
        words: &["surfaces", "--order", "short"],
        input: b"tri 1\n0:1032 0:1032 - -\n",
        status: Status::Done,
        text: b"# surfaces 5\nvec 0 0 0 0 0 0 1\nvec 0 0 0 0 0 1 0\nvec 0 0 0 0 1 0 0\nvec 0 0 1 1 0 0 0\nvec 1 1 0 0 0 0 0\n",
    },
    RunRow {
        words: &["surfaces", "--order", "zeros"],
        input: b"sig bkaagj\n",
        status: Status::Done,
        text: b"# surfaces 2\nvec 1 1 0 0 1 0 0\nvec 1 1 1 1 0 0 0\n",
    },
    RunRow {
        words: &["surfaces", "--order", "zeros"],
        input: b"sig bkaagb\n",
        status: Status::Done,
        text: b"# surfaces 3\nvec 0 0 0 0 1 0 0\nvec 0 0 1 1 0 0 0\nvec 1 1 0 0 0 0 0\n",
    },
    RunRow {
        words: &["surfaces", "--order", "zeros"],
        input: b"sig bkaaid\n",
        status: Status::Done,
        text: b"# surfaces 1\nvec 1 1 1 1 0 0 0\n",
    },
    RunRow {
        words: &["surfaces", "--order", "zeros"],
        input: b"sig cPcbbbiht\n",
        status: Status::Done,
        text: b"# surfaces 1\nvec 1 1 1 1 0 0 0 1 1 1 1 0 0 0\n",
    },
    RunRow {
        words: &["surfaces", "--order", "zeros"],
        input: b"tri 1\n0:1032 0:1032 - -\n",
        status: Status::Done,
        text: b"# surfaces 5\nvec 0 0 0 0 0 0 1\nvec 0 0 0 0 0 1 0\nvec 0 0 0 0 1 0 0\nvec 0 0 1 1 0 0 0\nvec 1 1 0 0 0 0 0\n",
    },
    RunRow {
        words: &["surfaces", "--coords", "octagon"],
        input: b"sig bkaagj\n",
        status: Status::Done,
        text: b"# surfaces 3\nvec 0 0 1 1 0 0 0 1 0 0\nvec 1 1 0 0 1 0 0 0 0 0\nvec 1 1 1 1 0 0 0 0 0 0\n",
    },
    RunRow {
        words: &["surfaces", "--coords", "quad"],
        input: b"sig bkaagj\n",
        status: Status::Done,
        text: b"# surfaces 1\nvec 1 0 0\n",
    },
    RunRow {
        words: &["surfaces", "--coords", "quad"],
        input: b"sig cPcbbbiht\n",
        status: Status::Done,
        text: b"# surfaces 4\nvec 0 0 2 0 0 1\nvec 0 1 0 0 2 0\nvec 0 1 0 2 0 0\nvec 2 0 0 0 0 1\n",
    },
    RunRow {
        words: &["surfaces", "--coords", "quad", "--order", "short"],
        input: b"sig cPcbbbiht\n",
        status: Status::Done,
        text: b"# surfaces 4\nvec 0 0 2 0 0 1\nvec 0 1 0 0 2 0\nvec 0 1 0 2 0 0\nvec 2 0 0 0 0 1\n",
    },
    RunRow {
        words: &["surfaces", "--coords", "quad", "--order", "zeros"],
        input: b"sig cPcbbbiht\n",
        status: Status::Done,
        text: b"# surfaces 4\nvec 0 0 2 0 0 1\nvec 0 1 0 0 2 0\nvec 0 1 0 2 0 0\nvec 2 0 0 0 0 1\n",
    },
    RunRow {
        words: &["surfaces", "--coords", "quad", "--max-entry", "1"],
        input: b"sig cPcbbbiht\n",
        status: Status::Large,
        text: b"refused: large step 0 row 0 value 0 0 0 0 0 1\n",
    },
    RunRow {
        words: &["surfaces", "--order", "given"],
        input: b"sig bkaagj\n",
        status: Status::Done,
        text: b"# surfaces 2\nvec 1 1 0 0 1 0 0\nvec 1 1 1 1 0 0 0\n",
    },
    RunRow {
        words: &["surfaces", "--max-entry", "1"],
        input: b"tri 1\n0:3102 0:1230 0:3012 0:2130\n",
        status: Status::Large,
        text: b"refused: large step 3 row 3 pair 1 0 1 1 0 0 0 and 0 0 1 0 0 0 1\n",
    },
    RunRow {
        words: &["surfaces", "--order", "short", "--max-entry", "1"],
        input: b"tri 1\n0:3102 0:1230 0:3012 0:2130\n",
        status: Status::Large,
        text: b"refused: large step 4 row 3 pair 1 0 1 1 0 0 0 and 0 0 1 0 0 0 1\n",
    },
    RunRow {
        words: &["surfaces", "--order", "zeros", "--max-entry", "1"],
        input: b"tri 1\n0:3102 0:1230 0:3012 0:2130\n",
        status: Status::Large,
        text: b"refused: large step 2 row 4 value 0 0 1 0 0 0 1\n",
    },
];

#[test]
fn surfaces_rows_are_answered(rt: HostRuntime) -> Result<(), Fail> {
    are_answered(&rt, rt.alloc(), &ROWS)
}
