//! Words that are accepted, and words that are not.
use crate::running::{RunRow, are_answered};
use std::test::Fail;
use workbench::Status;

const ROWS: [RunRow; 25] = [
    RunRow {
        words: &[],
        input: b"tri 0\n",
        status: Status::Usage,
        text: b"refused: usage\n",
    },
    RunRow {
        words: &["Verify"],
        input: b"tri 0\n",
        status: Status::Usage,
        text: b"refused: usage\n",
    },
    RunRow {
        words: &["verify", "verify"],
        input: b"tri 0\n",
        status: Status::Usage,
        text: b"refused: usage\n",
    },
    RunRow {
        words: &["help"],
        input: b"tri 0\n",
        status: Status::Usage,
        text: b"refused: usage\n",
    },
    RunRow {
        words: &["surfaces", "--order"],
        input: b"tri 0\n",
        status: Status::Usage,
        text: b"refused: usage\n",
    },
    RunRow {
        words: &["surface"],
        input: b"tri 0\n",
        status: Status::Usage,
        text: b"refused: usage\n",
    },
    RunRow {
        words: &["surfaces", "--max-entry", "0"],
        input: b"tri 0\n",
        status: Status::Usage,
        text: b"refused: usage\n",
    },
    RunRow {
        words: &["surfaces", "--max-entry="],
        input: b"tri 0\n",
        status: Status::Usage,
        text: b"refused: usage\n",
    },
    RunRow {
        words: &["surfaces", "-c", "quad"],
        input: b"tri 0\n",
        status: Status::Usage,
        text: b"refused: usage\n",
    },
    RunRow {
        words: &["rays", "--coords", "standard"],
        input: b"cone 0 0\n",
        status: Status::Usage,
        text: b"refused: usage\n",
    },
    RunRow {
        words: &[
            "rays",
            "--max-entry=170141183460469231731687303715884105728",
        ],
        input: b"cone 0 0\n",
        status: Status::Usage,
        text: b"refused: usage\n",
    },
    RunRow {
        words: &[
            "rays",
            "--max-entry=170141183460469231731687303715884105727",
        ],
        input: b"cone 0 0\n",
        status: Status::Done,
        text: b"# rays 0\n",
    },
    RunRow {
        words: &[
            "rays",
            "--max-entry",
            "000000000000000000000000000000000000000000001",
        ],
        input: b"cone 0 0\n",
        status: Status::Done,
        text: b"# rays 0\n",
    },
    RunRow {
        words: &[
            "rays",
            "--max-entry",
            "0000000000000000000000000000000000000000000001",
        ],
        input: b"cone 0 0\n",
        status: Status::Usage,
        text: b"refused: usage\n",
    },
    RunRow {
        words: &["rays", "--order=short", "--max-entry=4"],
        input: b"cone 3 2\n1 -2 0\n0 1 -2\n",
        status: Status::Done,
        text: b"# rays 1\nvec 4 2 1\n",
    },
    RunRow {
        words: &["rays", "--max-entry", "4", "--order", "given"],
        input: b"cone 3 2\n1 -2 0\n0 1 -2\n",
        status: Status::Done,
        text: b"# rays 1\nvec 4 2 1\n",
    },
    RunRow {
        words: &["rays", "--order", "given", "--order", "given"],
        input: b"cone 0 0\n",
        status: Status::Usage,
        text: b"refused: usage\n",
    },
    RunRow {
        words: &["make", "--seed", "0"],
        input: b"",
        status: Status::Usage,
        text: b"refused: usage\n",
    },
    RunRow {
        words: &["surfaces", "--order"],
        input: b"",
        status: Status::Usage,
        text: b"refused: usage\n",
    },
    RunRow {
        words: &["verify", "--coords", "quad", "--coords", "quad"],
        input: b"sig bkaagj\n",
        status: Status::Usage,
        text: b"refused: usage\n",
    },
    RunRow {
        words: &["verify", "--"],
        input: b"sig bkaagj\n",
        status: Status::Usage,
        text: b"refused: usage\n",
    },
    RunRow {
        words: &["verify", "--help"],
        input: b"sig bkaagj\n",
        status: Status::Usage,
        text: b"refused: usage\n",
    },
    RunRow {
        words: &["surfaces", "--max-entry", "0"],
        input: b"sig bkaagj\n",
        status: Status::Usage,
        text: b"refused: usage\n",
    },
    RunRow {
        words: &["surfaces", "--max-entry="],
        input: b"sig bkaagj\n",
        status: Status::Usage,
        text: b"refused: usage\n",
    },
    RunRow {
        words: &["surfaces", "-c", "quad"],
        input: b"sig bkaagj\n",
        status: Status::Usage,
        text: b"refused: usage\n",
    },
];

#[test]
fn usage_rows_are_answered(rt: HostRuntime) -> Result<(), Fail> {
    are_answered(&rt, rt.alloc(), &ROWS)
}
