//! The calls of `bench_io`, each once with its type. Calls that take or return a borrow are named as they are called.
use bench_io::{
    LexFault, LexKind, Lexer, MemorySink, MemorySource, NoMemory, NullSink, Place, SteadySource,
    Words, read_all, write_all,
};
use std::alloc::Global;
use std::test::Fail;

#[test]
fn calls_have_their_types(_rt: HostRuntime) {
    let _source: fn(Vec<u8>, Vec<u64>, usize) -> MemorySource = MemorySource::new;
    let _steady: fn(Vec<u8>) -> SteadySource = SteadySource::new;
    let _sink: fn(Global, usize, Vec<u64>, usize) -> Result<MemorySink, NoMemory> = MemorySink::new;
    let _null: fn() -> NullSink = NullSink::new;
    let _new: fn(Global) -> Words = Words::new;
    let _push: fn(&mut Words, &str) -> Result<(), NoMemory> = Words::push;
    let _len: fn(&Words) -> usize = Words::len;
}

#[test]
fn a_line_is_read_and_written(rt: HostRuntime) -> Result<(), Fail> {
    let mut bytes = Vec::new(rt.alloc());
    bytes.extend_from_slice(b"tri 1 x")?;
    let mut source = SteadySource::new(bytes);
    let read = read_all(rt.alloc(), &mut source, 7).ok().ok_or("read")?;
    let mut sink = NullSink::new();
    write_all(&mut sink, &read).ok().ok_or("written")?;
    let mut lexer = Lexer::new(&read);
    assert!(rt; lexer.next_line());
    let word: &[u8] = lexer.word().ok().ok_or("a word")?;
    let number: u128 = lexer.number(1).ok().ok_or("a number")?;
    assert_eq!(rt;
        (word, number, lexer.at_end()),
        (b"tri".as_slice(), 1u128, false)
    );
    let fault: Option<LexFault> = lexer.end_line().err();
    assert!(rt;
        matches!(
            fault,
            Some(LexFault {
                place: Place { line: 1, column: 7 },
                kind: LexKind::ExtraWord
            })
        )
    );
    Ok(())
}
