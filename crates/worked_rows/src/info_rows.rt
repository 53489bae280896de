//! Rows of `info`.
use crate::running::{RunRow, are_answered};
use std::test::Fail;
use workbench::Status;

const ROWS: [RunRow; 32] = [
    RunRow {
        words: &["info"],
        input: b"tri 2\n1:0123 1:1203 1:1032 1:3021\n0:0123 0:1320 0:2013 0:1032\n",
        status: Status::Done,
        text: b"tetrahedra 2\nconnected yes\norientable yes\nclosed yes\nvertices 1\nedges 2\nfaces 4\neuler 1\nvertex 0 degree 8 euler 0 closed yes kind torus\nedge 0 degree 6 place inner valid yes\nedge 1 degree 6 place inner valid yes\n",
    },
    RunRow {
        words: &["info"],
        input: b"sig cPcbbbiht\n",
        status: Status::Done,
        text: b"tetrahedra 2\nconnected yes\norientable yes\nclosed yes\nvertices 1\nedges 2\nfaces 4\neuler 1\nvertex 0 degree 8 euler 0 closed yes kind torus\nedge 0 degree 6 place inner valid yes\nedge 1 degree 6 place inner valid yes\n",
    },
    RunRow {
        words: &["info"],
        input: b"tri 1\n0:1203 0:2013 0:0231 0:0312\n",
        status: Status::Done,
        text: b"tetrahedra 1\nconnected yes\norientable no\nclosed yes\nvertices 1\nedges 1\nfaces 2\neuler 1\nvertex 0 degree 4 euler 0 closed yes kind klein\nedge 0 degree 6 place inner valid yes\n",
    },
    RunRow {
        words: &["info"],
        input: b"sig bkaaid\n",
        status: Status::Done,
        text: b"tetrahedra 1\nconnected yes\norientable no\nclosed yes\nvertices 1\nedges 1\nfaces 2\neuler 1\nvertex 0 degree 4 euler 0 closed yes kind klein\nedge 0 degree 6 place inner valid yes\n",
    },
    RunRow {
        words: &["info"],
        input: b"sig bkaag\n",
        status: Status::Input,
        text: b"refused: signature short 5\n",
    },
    RunRow {
        words: &["info"],
        input: b"sig bkaagjx\n",
        status: Status::Input,
        text: b"refused: signature trailing 6\n",
    },
    RunRow {
        words: &["info"],
        input: b"sig blaagj\n",
        status: Status::Input,
        text: b"refused: signature bad-type 1\n",
    },
    RunRow {
        words: &["info"],
        input: b"sig bAaagj\n",
        status: Status::Input,
        text: b"refused: signature leftover 1\n",
    },
    RunRow {
        words: &["info"],
        input: b"sig bkbagj\n",
        status: Status::Input,
        text: b"refused: signature destination 2\n",
    },
    RunRow {
        words: &["info"],
        input: b"sig bkaayj\n",
        status: Status::Input,
        text: b"refused: signature gluing 4\n",
    },
    RunRow {
        words: &["info"],
        input: b"sig bkaaga\n",
        status: Status::Input,
        text: b"refused: signature face-taken 5\n",
    },
    RunRow {
        words: &["info"],
        input: b"sig cQc\n",
        status: Status::Input,
        text: b"refused: signature unreached\n",
    },
    RunRow {
        words: &["info"],
        input: b"tri 1\n0:1023 - - -\n",
        status: Status::Input,
        text: b"refused: table not-mutual 0 0\n",
    },
    RunRow {
        words: &["info"],
        input: b"tri 1\n0:0123 - - -\n",
        status: Status::Input,
        text: b"refused: table self-glued 0 0\n",
    },
    RunRow {
        words: &["info"],
        input: b"tri 1\n1:0123 - - -\n",
        status: Status::Input,
        text: b"refused: table no-such-tet 0 0\n",
    },
    RunRow {
        words: &["info"],
        input: b"tri 1\n0:1023 0:1023 0:1230\n",
        status: Status::Input,
        text: b"refused: input 2 21 missing-word\n",
    },
    RunRow {
        words: &["info"],
        input: b"tri 1\n0:1023 0:1023 0:1230",
        status: Status::Input,
        text: b"refused: input 2 21 missing-word\n",
    },
    RunRow {
        words: &["info"],
        input: b"tri 1\n",
        status: Status::Input,
        text: b"refused: input 2 1 missing-word\n",
    },
    RunRow {
        words: &["info"],
        input: b"sig bkaagj x\n",
        status: Status::Input,
        text: b"refused: input 1 12 extra-word\n",
    },
    RunRow {
        words: &["info"],
        input: b"tri 1\n0:1032 0:1032 - -\n",
        status: Status::Done,
        text: b"tetrahedra 1\nconnected yes\norientable no\nclosed no\nvertices 2\nedges 4\nfaces 3\neuler 0\nvertex 0 degree 2 euler 1 closed no kind disc\nvertex 1 degree 2 euler 1 closed no kind disc\nedge 0 degree 1 place boundary valid yes\nedge 1 degree 2 place boundary valid yes\nedge 2 degree 2 place boundary valid yes\nedge 3 degree 1 place inner valid no\n",
    },
    RunRow {
        words: &["info"],
        input: b"sig b.aagj\n",
        status: Status::Input,
        text: b"refused: signature bad-char 1\n",
    },
    RunRow {
        words: &["info"],
        input: b"tri 340282366920938463463374607431768211456\n",
        status: Status::Input,
        text: b"refused: input 1 5 too-wide\n",
    },
    RunRow {
        words: &["info"],
        input: b"tri 4294967296\n",
        status: Status::Input,
        text: b"refused: table too-many\n",
    },
    RunRow {
        words: &["info"],
        input: b"tri 1\n4294967296:0123 - - -\n",
        status: Status::Input,
        text: b"refused: input 2 1 too-wide\n",
    },
    RunRow {
        words: &["info"],
        input: b"tri 1\n4294967295:0123 - - -\n",
        status: Status::Input,
        text: b"refused: table no-such-tet 0 0\n",
    },
    RunRow {
        words: &["info"],
        input: b"# \xff comment\ntri 0\n",
        status: Status::Done,
        text: b"tetrahedra 0\nconnected yes\norientable yes\nclosed yes\nvertices 0\nedges 0\nfaces 0\neuler 0\n",
    },
    RunRow {
        words: &["info"],
        input: b"\xfftri 0\n",
        status: Status::Input,
        text: b"refused: input 1 1 bad-byte\n",
    },
    RunRow {
        words: &["info"],
        input: b"tri 63",
        status: Status::Input,
        text: b"refused: input 1 7 missing-word\n",
    },
    RunRow {
        words: &["info"],
        input: b"tri 1001\n",
        status: Status::Input,
        text: b"refused: table too-many\n",
    },
    RunRow {
        words: &["info"],
        input: b"tri 2\n- - - -\n- - - -\n",
        status: Status::Done,
        text: b"tetrahedra 2\nconnected no\norientable yes\nclosed no\nvertices 8\nedges 12\nfaces 8\neuler 2\nvertex 0 degree 1 euler 1 closed no kind disc\nvertex 1 degree 1 euler 1 closed no kind disc\nvertex 2 degree 1 euler 1 closed no kind disc\nvertex 3 degree 1 euler 1 closed no kind disc\nvertex 4 degree 1 euler 1 closed no kind disc\nvertex 5 degree 1 euler 1 closed no kind disc\nvertex 6 degree 1 euler 1 closed no kind disc\nvertex 7 degree 1 euler 1 closed no kind disc\nedge 0 degree 1 place boundary valid yes\nedge 1 degree 1 place boundary valid yes\nedge 2 degree 1 place boundary valid yes\nedge 3 degree 1 place boundary valid yes\nedge 4 degree 1 place boundary valid yes\nedge 5 degree 1 place boundary valid yes\nedge 6 degree 1 place boundary valid yes\nedge 7 degree 1 place boundary valid yes\nedge 8 degree 1 place boundary valid yes\nedge 9 degree 1 place boundary valid yes\nedge 10 degree 1 place boundary valid yes\nedge 11 degree 1 place boundary valid yes\n",
    },
    RunRow {
        words: &["info"],
        input: b"sig bkaagj\n",
        status: Status::Done,
        text: b"tetrahedra 1\nconnected yes\norientable yes\nclosed yes\nvertices 1\nedges 2\nfaces 2\neuler 0\nvertex 0 degree 4 euler 2 closed yes kind sphere\nedge 0 degree 5 place inner valid yes\nedge 1 degree 1 place inner valid yes\n",
    },
    RunRow {
        words: &["info"],
        input: b"tri 2\n0:2310 1:2013 0:3201 1:1203\n0:1203 1:3201 1:2310 0:2013\n",
        status: Status::Done,
        text: b"tetrahedra 2\nconnected yes\norientable yes\nclosed yes\nvertices 1\nedges 1\nfaces 4\neuler 2\nvertex 0 degree 8 euler -2 closed yes kind other\nedge 0 degree 12 place inner valid yes\n",
    },
];

#[test]
fn info_rows_are_answered(rt: HostRuntime) -> Result<(), Fail> {
    are_answered(&rt, rt.alloc(), &ROWS)
}
