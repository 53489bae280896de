//! Rows of `make` and `bulk`.
use crate::running::{RunRow, STEADY, answered, are_answered};
use std::test::Fail;
use workbench::Status;

/// The table that each seed makes by one move.
const FOUR: &[u8] =
    b"tri 4\n1:0123 2:1023 3:1203 1:0123\n0:0123 2:0123 3:0213 0:0123\n0:1023 1:0123 3:0123 3:1203\n0:2013 1:0213 2:0123 2:2013\n41 0 3\n";

const ROWS: [RunRow; 9] = [
    RunRow {
        words: &["make", "--seed", "0", "--moves", "2"],
        input: b"",
        status: Status::Done,
        text: b"tri 3\n1:3120 1:3120 1:3120 2:1032\n2:0123 0:3120 0:3120 0:3120\n1:0123 2:0321 0:1032 2:0321\n23 1 0\n41 3 2\n",
    },
    RunRow {
        words: &["make", "--moves", "0", "--seed", "7"],
        input: b"",
        status: Status::Done,
        text: b"tri 1\n0:1023 0:1023 0:1230 0:3012\n",
    },
    RunRow {
        words: &["make", "--seed", "0", "--moves", "1"],
        input: b"",
        status: Status::Done,
        text: FOUR,
    },
    RunRow {
        words: &["make", "--seed", "1", "--moves", "1"],
        input: b"",
        status: Status::Done,
        text: FOUR,
    },
    RunRow {
        words: &["make", "--seed=7", "--moves=1"],
        input: b"what stands here is not read",
        status: Status::Done,
        text: FOUR,
    },
    RunRow {
        words: &["make", "--seed", "18446744073709551615", "--moves", "1"],
        input: b"",
        status: Status::Done,
        text: FOUR,
    },
    RunRow {
        words: &["bulk", "--seed", "0", "--moves", "0"],
        input: b"",
        status: Status::Done,
        text: b"seed 0\nmoves 0\ntetrahedra 1\ncertificate accepted 0\nsurfaces 2\nlargest 1\nlinking 1\n",
    },
    RunRow {
        words: &["make", "--seed", "0", "--moves", "1001"],
        input: b"",
        status: Status::Usage,
        text: b"refused: usage\n",
    },
    RunRow {
        words: &["bulk", "--seed", "0", "--moves", "6"],
        input: b"",
        status: Status::Usage,
        text: b"refused: usage\n",
    },
];

#[test]
fn making_rows_are_answered(rt: HostRuntime) -> Result<(), Fail> {
    are_answered(&rt, rt.alloc(), &ROWS)
}

/// The output of `make` is an input of `check`, which accepts it.
#[test]
fn made_tables_are_accepted(rt: HostRuntime) -> Result<(), Fail> {
    let alloc = rt.alloc();
    let making = ["make", "--seed", "7", "--moves", "200"];
    let made = answered(alloc, &making, b"", STEADY, STEADY, 1 << 16)?;
    assert!(rt; made.status == Status::Done);
    let checked = answered(alloc, &["check"], &made.text, STEADY, STEADY, 1 << 16)?;
    assert!(rt; checked.status == Status::Done);
    assert_eq!(rt; checked.text.as_slice(), b"accepted\n".as_slice());
    Ok(())
}

/// `make` with five moves finishes, and the same words give the same output.
#[test]
fn bulk_answers_alike(rt: HostRuntime) -> Result<(), Fail> {
    let alloc = rt.alloc();
    let words = ["bulk", "--seed", "5", "--moves", "5"];
    let first = answered(alloc, &words, b"", STEADY, STEADY, 1 << 16)?;
    let second = answered(alloc, &words, b"", STEADY, STEADY, 1 << 16)?;
    assert!(rt; first.status == Status::Done);
    assert_eq!(rt; first.text.as_slice(), second.text.as_slice());
    let begin = b"seed 5\nmoves 5\n".as_slice();
    assert!(rt; first.text.as_slice().starts_with(begin));
    Ok(())
}
