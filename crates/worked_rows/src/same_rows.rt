//! Rows of `same`.
use crate::running::{RunRow, are_answered};
use std::test::Fail;
use workbench::Status;

const ROWS: [RunRow; 9] = [
    RunRow {
        words: &["same"],
        input: b"sig bkaagn\nsig bkaagj\n",
        status: Status::Done,
        text: b"same\n0 0 0132\n",
    },
    RunRow {
        words: &["same"],
        input: b"sig bkaagb\nsig bkaagj\n",
        status: Status::Done,
        text: b"different\n",
    },
    RunRow {
        words: &["same"],
        input: b"tri 2\n- - - -\n- - - -\nsig bkaagj\n",
        status: Status::Refused,
        text: b"refused: not-connected 0 1\n",
    },
    RunRow {
        words: &["same"],
        input: b"sig bkaagj\ntri 2\n- - - -\n- - - -\n",
        status: Status::Refused,
        text: b"refused: not-connected 1 1\n",
    },
    RunRow {
        words: &["same"],
        input: b"tri 2\n- - - -\n- - - -\nsig bkaag\n",
        status: Status::Input,
        text: b"refused: signature short 5\n",
    },
    RunRow {
        words: &["same"],
        input: b"sig bkaagj\n",
        status: Status::Input,
        text: b"refused: input 2 1 missing-word\n",
    },
    RunRow {
        words: &["same"],
        input: b"sig bkaagj\nsig bkaagj\nsig bkaagj\n",
        status: Status::Input,
        text: b"refused: input 3 1 extra-word\n",
    },
    RunRow {
        words: &["same"],
        input: b"tri 0\ntri 0\n",
        status: Status::Done,
        text: b"same\n",
    },
    RunRow {
        words: &["same"],
        input: b"sig -b-beeeeeeeeeeeeeeeeeeeeeeeeeeeeeeeeeeeeeeeeeeeeeeeeeeeeeeeeeeeeeaa\nsig -b-beeeeeeeeeeeeeeeeeeeeeeeeeeeeeeeeeeeeeeeeeeeeeeeeeeeeeeeeeeeeeaa\n",
        status: Status::Done,
        text: b"same\n0 0 0123\n1 1 0123\n2 2 0123\n3 3 0123\n4 4 0123\n5 5 0123\n6 6 0123\n7 7 0123\n8 8 0123\n9 9 0123\n10 10 0123\n11 11 0123\n12 12 0123\n13 13 0123\n14 14 0123\n15 15 0123\n16 16 0123\n17 17 0123\n18 18 0123\n19 19 0123\n20 20 0123\n21 21 0123\n22 22 0123\n23 23 0123\n24 24 0123\n25 25 0123\n26 26 0123\n27 27 0123\n28 28 0123\n29 29 0123\n30 30 0123\n31 31 0123\n32 32 0123\n33 33 0123\n34 34 0123\n35 35 0123\n36 36 0123\n37 37 0123\n38 38 0123\n39 39 0123\n40 40 0123\n41 41 0123\n42 42 0123\n43 43 0123\n44 44 0123\n45 45 0123\n46 46 0123\n47 47 0123\n48 48 0123\n49 49 0123\n50 50 0123\n51 51 0123\n52 52 0123\n53 53 0123\n54 54 0123\n55 55 0123\n56 56 0123\n57 57 0123\n58 58 0123\n59 59 0123\n60 60 0123\n61 61 0123\n62 62 0123\n",
    },
];

#[test]
fn same_rows_are_answered(rt: HostRuntime) -> Result<(), Fail> {
    are_answered(&rt, rt.alloc(), &ROWS)
}
