//! Rows of `play`.
use crate::running::{RunRow, STEADY, answered, are_answered};
use std::alloc::Global;
use std::process::Abort;
use std::test::Fail;
use workbench::Status;

const ROWS: [RunRow; 23] = [
    RunRow {
        words: &["play"],
        input: b"tri 1\n0:1023 0:1023 0:1230 0:3012\n14 0\n41 0 3\n",
        status: Status::Done,
        text: b"done\ndone\ntri 1\n0:3120 0:1230 0:3012 0:3120\n",
    },
    RunRow {
        words: &["play"],
        input: b"sig bkaagj\n14 0\n41 0 3\n",
        status: Status::Done,
        text: b"done\ndone\ntri 1\n0:3120 0:1230 0:3012 0:3120\n",
    },
    RunRow {
        words: &["play"],
        input: b"tri 1\n0:1023 0:1023 0:1230 0:3012\n14 0\n41 0 3\nundo\nundo\nundo\n",
        status: Status::Done,
        text: b"done\ndone\nundone\nundone\nnothing\ntri 1\n0:1023 0:1023 0:1230 0:3012\n",
    },
    RunRow {
        words: &["play"],
        input: b"sig bkaagj\n14 0\n41 0 3\nundo\nundo\nundo\n",
        status: Status::Done,
        text: b"done\ndone\nundone\nundone\nnothing\ntri 1\n0:1023 0:1023 0:1230 0:3012\n",
    },
    RunRow {
        words: &["play"],
        input: b"tri 1\n0:1023 0:1023 0:1230 0:3012\n14 0\n",
        status: Status::Done,
        text: b"done\ntri 4\n1:0123 2:1023 3:1203 1:0123\n0:0123 2:0123 3:0213 0:0123\n0:1023 1:0123 3:0123 3:1203\n0:2013 1:0213 2:0123 2:2013\n",
    },
    RunRow {
        words: &["play"],
        input: b"sig bkaagj\n14 0\n",
        status: Status::Done,
        text: b"done\ntri 4\n1:0123 2:1023 3:1203 1:0123\n0:0123 2:0123 3:0213 0:0123\n0:1023 1:0123 3:0123 3:1203\n0:2013 1:0213 2:0123 2:2013\n",
    },
    RunRow {
        words: &["play"],
        input: b"tri 1\n0:1023 0:1023 0:1230 0:3012\n14 0\n41 0 0\n",
        status: Status::Done,
        text: b"done\nillegal not-matched 1 3\ntri 4\n1:0123 2:1023 3:1203 1:0123\n0:0123 2:0123 3:0213 0:0123\n0:1023 1:0123 3:0123 3:1203\n0:2013 1:0213 2:0123 2:2013\n",
    },
    RunRow {
        words: &["play"],
        input: b"sig bkaagj\n14 0\n41 0 0\n",
        status: Status::Done,
        text: b"done\nillegal not-matched 1 3\ntri 4\n1:0123 2:1023 3:1203 1:0123\n0:0123 2:0123 3:0213 0:0123\n0:1023 1:0123 3:0123 3:1203\n0:2013 1:0213 2:0123 2:2013\n",
    },
    RunRow {
        words: &["play"],
        input: b"tri 1\n0:1023 0:1023 0:1230 0:3012\n23 0 0\n",
        status: Status::Done,
        text: b"illegal repeated 3\ntri 1\n0:1023 0:1023 0:1230 0:3012\n",
    },
    RunRow {
        words: &["play"],
        input: b"sig bkaagj\n23 0 0\n",
        status: Status::Done,
        text: b"illegal repeated 3\ntri 1\n0:1023 0:1023 0:1230 0:3012\n",
    },
    RunRow {
        words: &["play"],
        input: b"tri 1\n- - - -\n23 0 0\n",
        status: Status::Done,
        text: b"illegal boundary 3\ntri 1\n- - - -\n",
    },
    RunRow {
        words: &["play"],
        input: b"tri 59\n- - - -\n- - - -\n- - - -\n- - - -\n- - - -\n- - - -\n- - - -\n- - - -\n- - - -\n- - - -\n- - - -\n- - - -\n- - - -\n- - - -\n- - - -\n- - - -\n- - - -\n- - - -\n- - - -\n- - - -\n- - - -\n- - - -\n- - - -\n- - - -\n- - - -\n- - - -\n- - - -\n- - - -\n- - - -\n- - - -\n- - - -\n- - - -\n- - - -\n- - - -\n- - - -\n- - - -\n- - - -\n- - - -\n- - - -\n- - - -\n- - - -\n- - - -\n- - - -\n- - - -\n- - - -\n- - - -\n- - - -\n- - - -\n- - - -\n- - - -\n- - - -\n- - - -\n- - - -\n- - - -\n- - - -\n- - - -\n- - - -\n- - - -\n- - - -\n14 0\n",
        status: Status::Done,
        text: b"done\ntri 62\n- - - -\n- - - -\n- - - -\n- - - -\n- - - -\n- - - -\n- - - -\n- - - -\n- - - -\n- - - -\n- - - -\n- - - -\n- - - -\n- - - -\n- - - -\n- - - -\n- - - -\n- - - -\n- - - -\n- - - -\n- - - -\n- - - -\n- - - -\n- - - -\n- - - -\n- - - -\n- - - -\n- - - -\n- - - -\n- - - -\n- - - -\n- - - -\n- - - -\n- - - -\n- - - -\n- - - -\n- - - -\n- - - -\n- - - -\n- - - -\n- - - -\n- - - -\n- - - -\n- - - -\n- - - -\n- - - -\n- - - -\n- - - -\n- - - -\n- - - -\n- - - -\n- - - -\n- - - -\n- - - -\n- - - -\n- - - -\n- - - -\n- - - -\n59:0123 60:1023 61:1203 -\n58:0123 60:0123 61:0213 -\n58:1023 59:0123 61:0123 -\n58:2013 59:0213 60:0123 -\n",
    },
    RunRow {
        words: &["play"],
        input: b"tri 1\n0:1023 0:1023 0:1230 0:3012\n14 0\nundo\n23 0 0\nredo\n",
        status: Status::Done,
        text: b"done\nundone\nillegal repeated 3\nredone\ntri 4\n1:0123 2:1023 3:1203 1:0123\n0:0123 2:0123 3:0213 0:0123\n0:1023 1:0123 3:0123 3:1203\n0:2013 1:0213 2:0123 2:2013\n",
    },
    RunRow {
        words: &["play"],
        input: b"sig -b-beeeeeeeeeeeeeeeeeeeeeeeeeeeeeeeeeeeeeeeeeeeeeeeeeeeeeeeeeeeeeaa\n",
        status: Status::Done,
        text: b"tri 63\n1:0123 - - -\n0:0123 2:0123 - -\n3:0123 1:0123 - -\n2:0123 4:0123 - -\n5:0123 3:0123 - -\n4:0123 6:0123 - -\n7:0123 5:0123 - -\n6:0123 8:0123 - -\n9:0123 7:0123 - -\n8:0123 10:0123 - -\n11:0123 9:0123 - -\n10:0123 12:0123 - -\n13:0123 11:0123 - -\n12:0123 14:0123 - -\n15:0123 13:0123 - -\n14:0123 16:0123 - -\n17:0123 15:0123 - -\n16:0123 18:0123 - -\n19:0123 17:0123 - -\n18:0123 20:0123 - -\n21:0123 19:0123 - -\n20:0123 22:0123 - -\n23:0123 21:0123 - -\n22:0123 24:0123 - -\n25:0123 23:0123 - -\n24:0123 26:0123 - -\n27:0123 25:0123 - -\n26:0123 28:0123 - -\n29:0123 27:0123 - -\n28:0123 30:0123 - -\n31:0123 29:0123 - -\n30:0123 32:0123 - -\n33:0123 31:0123 - -\n32:0123 34:0123 - -\n35:0123 33:0123 - -\n34:0123 36:0123 - -\n37:0123 35:0123 - -\n36:0123 38:0123 - -\n39:0123 37:0123 - -\n38:0123 40:0123 - -\n41:0123 39:0123 - -\n40:0123 42:0123 - -\n43:0123 41:0123 - -\n42:0123 44:0123 - -\n45:0123 43:0123 - -\n44:0123 46:0123 - -\n47:0123 45:0123 - -\n46:0123 48:0123 - -\n49:0123 47:0123 - -\n48:0123 50:0123 - -\n51:0123 49:0123 - -\n50:0123 52:0123 - -\n53:0123 51:0123 - -\n52:0123 54:0123 - -\n55:0123 53:0123 - -\n54:0123 56:0123 - -\n57:0123 55:0123 - -\n56:0123 58:0123 - -\n59:0123 57:0123 - -\n58:0123 60:0123 - -\n61:0123 59:0123 - -\n60:0123 62:0123 - -\n- 61:0123 - -\n",
    },
    RunRow {
        words: &["play"],
        input: b"sig bkaagj\n",
        status: Status::Done,
        text: b"tri 1\n0:1023 0:1023 0:1230 0:3012\n",
    },
    RunRow {
        words: &["play"],
        input: b"sig bkaagn\n",
        status: Status::Done,
        text: b"tri 1\n0:1023 0:1023 0:2031 0:1302\n",
    },
    RunRow {
        words: &["play"],
        input: b"sig bkaagb\n",
        status: Status::Done,
        text: b"tri 1\n0:1023 0:1023 0:0132 0:0132\n",
    },
    RunRow {
        words: &["play"],
        input: b"sig bkaajj\n",
        status: Status::Done,
        text: b"tri 1\n0:1230 0:3012 0:1230 0:3012\n",
    },
    RunRow {
        words: &["play"],
        input: b"sig bkaaid\n",
        status: Status::Done,
        text: b"tri 1\n0:1203 0:2013 0:0231 0:0312\n",
    },
    RunRow {
        words: &["play"],
        input: b"sig cPcbbbiht\n",
        status: Status::Done,
        text: b"tri 2\n1:0123 1:1203 1:1032 1:3021\n0:0123 0:1320 0:2013 0:1032\n",
    },
    RunRow {
        words: &["play"],
        input: b"tri 4\n1:0123 2:1023 3:1203 1:0123\n0:0123 2:0123 3:0213 0:0123\n0:1023 1:0123 3:0123 3:1203\n0:2013 1:0213 2:0123 2:2013\n32 0 13\n",
        status: Status::Done,
        text: b"done\ntri 3\n1:3120 1:3120 1:3120 2:1032\n2:0123 0:3120 0:3120 0:3120\n1:0123 2:0321 0:1032 2:0321\n",
    },
    RunRow {
        words: &["play"],
        input: b"tri 1\n- - - -\n14 5\n",
        status: Status::Done,
        text: b"illegal no-such-tet\ntri 1\n- - - -\n",
    },
    RunRow {
        words: &["play"],
        input: b"tri 3\n1:3120 1:3120 1:3120 2:1032\n2:0123 0:3120 0:3120 0:3120\n1:0123 2:0321 0:1032 2:0321\n23 1 0\n41 3 2\nundo\nundo\n",
        status: Status::Done,
        text: b"done\ndone\nundone\nundone\ntri 3\n1:3120 1:3120 1:3120 2:1032\n2:0123 0:3120 0:3120 0:3120\n1:0123 2:0321 0:1032 2:0321\n",
    },
];

#[test]
fn play_rows_are_answered(rt: HostRuntime) -> Result<(), Fail> {
    are_answered(&rt, rt.alloc(), &ROWS)
}

/// Appends the rows of `count` tetrahedra without glued faces.
fn push_disconnected(text: &mut Vec<u8>, count: u32) -> Result<(), Fail> {
    for _tet in 0..count {
        text.extend_from_slice(b"- - - -\n")?;
    }
    Ok(())
}

/// Asserts that the move `14 0` on `count` tetrahedra without glued faces gives `expected`.
fn is_played_on_disconnected(
    rt: &impl Abort,
    alloc: Global,
    count: u32,
    first: &[u8],
    expected: &[u8],
) -> Result<(), Fail> {
    let mut input = first.to_vec(alloc)?;
    push_disconnected(&mut input, count)?;
    input.extend_from_slice(b"14 0\n")?;
    let answer = answered(alloc, &["play"], &input, STEADY, STEADY, 1 << 16)?;
    assert!(rt; answer.status == Status::Done);
    assert_eq!(rt; answer.text.as_slice(), expected);
    Ok(())
}

#[test]
fn moves_keep_within_the_limit(rt: HostRuntime) -> Result<(), Fail> {
    let mut refused = b"illegal too-many\ntri 998\n".to_vec(rt.alloc())?;
    push_disconnected(&mut refused, 998)?;
    is_played_on_disconnected(&rt, rt.alloc(), 998, b"tri 998\n", &refused)?;
    let mut played = b"done\ntri 1000\n".to_vec(rt.alloc())?;
    push_disconnected(&mut played, 996)?;
    played.extend_from_slice(b"997:0123 998:1023 999:1203 -\n996:0123 998:0123 999:0213 -\n")?;
    played.extend_from_slice(b"996:1023 997:0123 999:0123 -\n996:2013 997:0213 998:0123 -\n")?;
    is_played_on_disconnected(&rt, rt.alloc(), 997, b"tri 997\n", &played)
}
