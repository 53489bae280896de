use crate::sample_tables::{by, read_table, table_of, text_of};
use gluing_table::Face;
use out_of_memory::Failure;
use signature_codec::{NotOrdered, SigFault, read_any, read_signature, spell};
use std::alloc::Global;
use std::test::Fail;
use text_io::Lexer;

fn table_text(alloc: Global, text: &[u8]) -> Result<Vec<u8>, Fail> {
    let table = read_table(alloc, text)?;
    Ok(text_of(alloc, &table)?)
}

#[test]
fn worked_texts_are_read_and_spelled(rt: HostRuntime) -> Result<(), Fail> {
    let worked: [(&[u8], &[u8]); 7] = [
        (b"a", b"tri 0\n"),
        (b"bkaagj", b"tri 1\n0:1023 0:1023 0:1230 0:3012\n"),
        (b"bkaagn", b"tri 1\n0:1023 0:1023 0:2031 0:1302\n"),
        (b"bkaagb", b"tri 1\n0:1023 0:1023 0:0132 0:0132\n"),
        (b"bkaajj", b"tri 1\n0:1230 0:3012 0:1230 0:3012\n"),
        (b"bkaaid", b"tri 1\n0:1203 0:2013 0:0231 0:0312\n"),
        (
            b"cPcbbbiht",
            b"tri 2\n1:0123 1:1203 1:1032 1:3021\n0:0123 0:1320 0:2013 0:1032\n",
        ),
    ];
    for (text, written) in worked {
        assert_eq!(rt; table_text(rt.alloc(), text)?.as_slice(), written);
        let table = read_table(rt.alloc(), text)?;
        let spelled = spell(rt.alloc(), &table).ok().ok_or("no text")?;
        assert_eq!(rt; spelled.as_slice(), text);
    }
    Ok(())
}

/// The kind of `fault`, and its position in the text, or 0.
fn kind_and_place(fault: SigFault) -> (&'static str, usize) {
    match fault {
        SigFault::NoMemory => ("no memory", 0),
        SigFault::BadChar { at } => ("bad char", at),
        SigFault::Short { at } => ("short", at),
        SigFault::BadType { at } => ("bad type", at),
        SigFault::Leftover { at } => ("leftover", at),
        SigFault::Destination { at } => ("destination", at),
        SigFault::Gluing { at } => ("gluing", at),
        SigFault::FaceTaken { at } => ("face taken", at),
        SigFault::Trailing { at } => ("trailing", at),
        SigFault::TooMany => ("too many", 0),
        SigFault::Unreached => ("unreached", 0),
        SigFault::Width { at } => ("width", at),
    }
}

#[test]
fn the_first_fault_is_answered(rt: HostRuntime) {
    let faults: [(&[u8], (&str, usize)); 20] = [
        (b"", ("short", 0)),
        (b"bkaag", ("short", 5)),
        (b"bkaagjx", ("trailing", 6)),
        (b"blaagj", ("bad type", 1)),
        (b"bAaagj", ("leftover", 1)),
        (b"bkbagj", ("destination", 2)),
        (b"bkaayj", ("gluing", 4)),
        (b"bkaaga", ("face taken", 5)),
        (b"cQc", ("unreached", 0)),
        (b"b.aagj", ("bad char", 1)),
        (b"-", ("short", 1)),
        (b"-a", ("width", 1)),
        (b"-b", ("short", 2)),
        (b"-b9", ("width", 1)),
        (b"-cba", ("width", 1)),
        (b"-c-a", ("width", 1)),
        (b"-d", ("too many", 0)),
        (b"-c+p", ("too many", 0)),
        (b"-cOp", ("short", 4)),
        (b"-b-", ("short", 3)),
    ];
    for (text, fault) in faults {
        let answer = read_signature(rt.alloc(), text).err().map(kind_and_place);
        assert_eq!(rt; answer, Some(fault));
    }
}

#[test]
fn tables_in_another_order_are_not_spelled(rt: HostRuntime) {
    let rows = [
        [by(1, b"1023"), None, None, None],
        [None, by(0, b"1023"), None, None],
    ];
    let table = table_of(&rt, rt.alloc(), &rows);
    let Err(Failure::Fault(NotOrdered { tet, face })) = spell(rt.alloc(), &table) else {
        panic!(rt; "it is spelled");
    };
    assert_eq!(rt; (tet, face), (0, 0));
}

#[test]
fn a_long_text_is_read_and_spelled(rt: HostRuntime) -> Result<(), Fail> {
    let mut text = Vec::new(rt.alloc());
    text.extend_from_slice(b"-b-b")?;
    for _ in 0..61 {
        text.push(b'e')?;
    }
    text.extend_from_slice(b"aa")?;
    let table = read_table(rt.alloc(), &text)?;
    assert_eq!(rt; table.len(), 63);
    let spelled = spell(rt.alloc(), &table).ok().ok_or("no text")?;
    assert_eq!(rt; spelled.as_slice(), text.as_slice());
    Ok(())
}

fn next_table(alloc: Global, lexer: &mut Lexer<'_>) -> Result<Vec<u8>, Fail> {
    lexer.need_line().ok().ok_or("no line")?;
    let table = read_any(alloc, lexer).ok().ok_or("no table")?;
    Ok(text_of(alloc, &table)?)
}

#[test]
fn tables_are_read_in_either_form(rt: HostRuntime) -> Result<(), Fail> {
    let written = b"tri 1\n0:1023 0:1023 0:1230 0:3012\n".as_slice();
    let mut lexer = Lexer::new(b"sig bkaagj\ntri 1\n0:1023 0:1023 0:1230 0:3012\n");
    assert_eq!(rt; next_table(rt.alloc(), &mut lexer)?.as_slice(), written);
    assert_eq!(rt; next_table(rt.alloc(), &mut lexer)?.as_slice(), written);
    Ok(())
}
