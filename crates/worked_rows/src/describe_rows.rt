//! Rows of `describe`.
use crate::running::{RunRow, are_answered};
use std::test::Fail;
use workbench::Status;

const ROWS: [RunRow; 7] = [
    RunRow {
        words: &["describe"],
        input: b"sig bkaajj\nvec 0 0 0 0 0 1 0\nvec 0 0 0 0 0 2 0\nvec 1 1 1 1 0 0 0\n",
        status: Status::Done,
        text: b"vec 0 0 0 0 0 1 0\neuler 0 linking no boundary no components 1\ncomponent euler 0 sides one orientable no vec 0 0 0 0 0 1 0\nvec 0 0 0 0 0 2 0\neuler 0 linking no boundary no components 1\ncomponent euler 0 sides two orientable yes vec 0 0 0 0 0 2 0\nvec 1 1 1 1 0 0 0\neuler 2 linking yes boundary no components 1\ncomponent euler 2 sides two orientable yes vec 1 1 1 1 0 0 0\n",
    },
    RunRow {
        words: &["describe"],
        input: b"sig bkaagj\nvec 25001 25001 25001 25001 0 0 0\n",
        status: Status::Refused,
        text: b"refused: vector 0 too-many-pieces 100004\n",
    },
    RunRow {
        words: &["describe"],
        input: b"tri 1\n0:1032 0:1032 - -\n",
        status: Status::Refused,
        text: b"refused: invalid-edge 3\n",
    },
    RunRow {
        words: &["describe"],
        input: b"sig bkaagj\nvec 1 1 0 0 1 0 0\n",
        status: Status::Done,
        text: b"vec 1 1 0 0 1 0 0\neuler 0 linking no boundary no components 1\ncomponent euler 0 sides two orientable yes vec 1 1 0 0 1 0 0\n",
    },
    RunRow {
        words: &["describe"],
        input: b"tri 1\n- - - -\nvec 0 0 0 0 0 0 0\n",
        status: Status::Done,
        text: b"vec 0 0 0 0 0 0 0\neuler 0 linking yes boundary no components 0\n",
    },
    RunRow {
        words: &["describe"],
        input: b"sig bkaagj\nvec 170141183460469231731687303715884105727 170141183460469231731687303715884105727 170141183460469231731687303715884105727 170141183460469231731687303715884105727 0 0 0\n",
        status: Status::Large,
        text: b"refused: vector 0 large-sum points\n",
    },
    RunRow {
        words: &["describe", "--coords", "octagon"],
        input: b"sig bkaagj\nvec 0 0 1 1 0 0 0 1 0 0\n",
        status: Status::Done,
        text: b"vec 0 0 1 1 0 0 0 1 0 0\neuler 2 linking no boundary no components 1\ncomponent euler 2 sides two orientable yes vec 0 0 1 1 0 0 0 1 0 0\n",
    },
];

#[test]
fn describe_rows_are_answered(rt: HostRuntime) -> Result<(), Fail> {
    are_answered(&rt, rt.alloc(), &ROWS)
}
