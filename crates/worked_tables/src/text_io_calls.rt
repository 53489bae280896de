ghost use Rattle.std.specs.Prelude.{◌<◌, length};

use memory_io::{MemorySink, MemorySource};
use std::alloc::Global;
use std::test::Fail;
use text_io::{
    Failed, LIMIT, LexFault, LexKind, Lexer, NullSink, ReadEnd, StdSink, StdSource, SteadySource,
    Words, read_all, write_all,
};

const INPUT: &[u8] = b"sig bkaagj\n";

const ANSWER: &[u8] = b"# surfaces 2\nvec 1 1 0 0 1 0 0\nvec 1 1 1 1 0 0 0\n";

/// The lexer at the first line of `bytes` that has words.
fn at_first_line(bytes: &[u8]) -> Lexer<'_>
    requires { length bytes.now < 1000 }
{
    let mut lexer = Lexer::new(bytes);
    let _is_found = lexer.next_line();
    lexer
}

#[test]
fn words_are_read_in_turn(rt: HostRuntime) {
    let mut lexer = at_first_line(b"# \xff\n\t tri  0012 \r\n\n \n");
    let word = lexer.word().ok().expect(&rt, "a word");
    assert_eq!(rt; word, b"tri".as_slice());
    assert!(rt; !lexer.at_end());
    assert_eq!(rt; lexer.number(12).ok(), Some(12));
    assert!(rt; lexer.at_end());
}

#[test]
fn signed_numbers_are_read(rt: HostRuntime) {
    let mut lexer = at_first_line(b"-7 -0 8");
    let numbers = [
        lexer.signed(7).ok(),
        lexer.signed(0).ok(),
        lexer.signed(2147483647).ok(),
    ];
    assert_eq!(rt; numbers, [Some(-7), Some(0), Some(8)]);
    assert!(rt; place_and_kind(lexer.bad_word()) == (1, 7, LexKind::BadWord));
}

#[test]
fn lines_follow_each_other(rt: HostRuntime) {
    let mut lexer = at_first_line(b"tri\n\n \n ab\n#");
    assert!(rt; lexer.word().is_ok());
    assert!(rt; lexer.end_line().is_ok() && lexer.need_line().is_ok());
    let word = lexer.word().ok().expect(&rt, "a word");
    assert_eq!(rt; word, b"ab".as_slice());
    assert!(rt; !lexer.next_line());
    let fault = lexer.need_line().err().map(place_and_kind);
    assert!(rt; fault == Some((5, 2, LexKind::MissingWord)));
}

/// The line and the column of `fault`, and its kind.
fn place_and_kind(fault: LexFault) -> (u32, u32, LexKind) {
    (fault.place.line, fault.place.column, fault.kind)
}

/// The read of the first line of an input.
#[derive(Clone, Copy)]
enum Expected {
    Line,
    Word,
    Number(u128),
    Signed(u32),
    End,
}

/// The error of the read `asked` of the first line of `bytes`.
fn fault_of(bytes: &[u8], asked: Expected) -> Option<(u32, u32, LexKind)> {
    if bytes.len() > 1000 {
        return None;
    }
    let mut lexer = Lexer::new(bytes);
    let fault = lexer
        .need_line()
        .and_then(|()| ask(&mut lexer, asked))
        .err()?;
    Some(place_and_kind(fault))
}

fn ask(lexer: &mut Lexer, asked: Expected) -> Result<(), LexFault> {
    match asked {
        Expected::Line => lexer.need_line(),
        Expected::Word => lexer.word().map(|_| ()),
        Expected::Number(max) => lexer.number(max).map(|_| ()),
        Expected::Signed(max) if max < 1000 => lexer.signed(max).map(|_| ()),
        Expected::Signed(_) => Ok(()),
        Expected::End => lexer.end_line(),
    }
}

const CASES: [(&[u8], Expected, Option<(u32, u32, LexKind)>); 26] = [
    (b"", Expected::Word, Some((1, 1, LexKind::MissingWord))),
    (b" \t", Expected::Word, Some((1, 3, LexKind::MissingWord))),
    (
        b"#a\n\n  ",
        Expected::Word,
        Some((3, 3, LexKind::MissingWord)),
    ),
    (b"#\n", Expected::Word, Some((2, 1, LexKind::MissingWord))),
    (b"#\r", Expected::Word, Some((1, 3, LexKind::MissingWord))),
    (
        b"a \r\n",
        Expected::Line,
        Some((2, 1, LexKind::MissingWord)),
    ),
    (b"\xff#", Expected::Word, Some((1, 1, LexKind::BadByte))),
    (
        b"\r\n  \r\r\n",
        Expected::Word,
        Some((2, 3, LexKind::BadByte)),
    ),
    (
        b"\n\t\x7f",
        Expected::Number(9),
        Some((2, 2, LexKind::BadByte)),
    ),
    (b"  \x00", Expected::End, Some((1, 3, LexKind::BadByte))),
    (b" ab", Expected::End, Some((1, 2, LexKind::ExtraWord))),
    (b"a#", Expected::Word, None),
    (b"~!", Expected::Word, None),
    (
        b"\n 1x",
        Expected::Number(9),
        Some((2, 2, LexKind::BadWord)),
    ),
    (b"-1", Expected::Number(9), Some((1, 1, LexKind::BadWord))),
    (b"+1", Expected::Signed(9), Some((1, 1, LexKind::BadWord))),
    (b" -", Expected::Signed(9), Some((1, 2, LexKind::BadWord))),
    (b"--1", Expected::Signed(9), Some((1, 1, LexKind::BadWord))),
    (
        b" -10",
        Expected::Signed(9),
        Some((1, 2, LexKind::NumberTooWide)),
    ),
    (b"-09", Expected::Signed(9), None),
    (
        b"10",
        Expected::Number(9),
        Some((1, 1, LexKind::NumberTooWide)),
    ),
    (
        b"0000000000000000000000000000000000000000000000009",
        Expected::Number(9),
        None,
    ),
    (
        b"170141183460469231731687303715884105727",
        Expected::Number(LIMIT),
        None,
    ),
    (
        b"170141183460469231731687303715884105728",
        Expected::Number(LIMIT),
        Some((1, 1, LexKind::NumberTooWide)),
    ),
    (
        b"340282366920938463463374607431768211456",
        Expected::Number(u128::MAX),
        Some((1, 1, LexKind::NumberTooWide)),
    ),
    (
        b"340282366920938463463374607431768211456x",
        Expected::Number(u128::MAX),
        Some((1, 1, LexKind::BadWord)),
    ),
];

#[test]
fn each_fault_has_its_place(rt: HostRuntime) {
    for (bytes, asked, expected) in &CASES {
        assert!(rt; fault_of(bytes, *asked) == *expected, "{bytes:?}");
    }
}

/// The result of reading up to `limit` bytes of a source that fails at the calls `failing`.
fn read_of(alloc: Global, failing: &[u64], limit: u64) -> Result<Result<Vec<u8>, ReadEnd>, Fail>
    requires { limit < 1000 }
{
    let mut source = MemorySource::new(INPUT.to_vec(alloc)?, failing.to_vec(alloc)?, 7);
    Ok(read_all(alloc, &mut source, limit))
}

#[test]
fn all_is_read(rt: HostRuntime) -> Result<(), Fail> {
    let alloc = rt.alloc();
    let mut steady = SteadySource::new(INPUT.to_vec(alloc)?);
    let read = read_all(alloc, &mut steady, INPUT.len() as u64)
        .ok()
        .expect(&rt, "steady");
    assert_eq!(rt; read.as_slice(), INPUT);
    let read = read_all(alloc, &mut StdSource::new(INPUT), 1000)
        .ok()
        .expect(&rt, "standard");
    assert_eq!(rt; read.as_slice(), INPUT);
    let read = read_of(alloc, &[4], INPUT.len() as u64)?
        .ok()
        .expect(&rt, "late");
    assert_eq!(rt; read.as_slice(), INPUT);
    Ok(())
}

#[test]
fn the_cause_of_a_failed_read_is_reported(rt: HostRuntime) -> Result<(), Fail> {
    let length = INPUT.len() as u64;
    let long = read_of(rt.alloc(), &[], length - 1)?;
    assert!(rt; matches!(long, Err(ReadEnd::TooLong)));
    for call in 1..4 {
        let failed = read_of(rt.alloc(), &[call], length)?;
        assert!(rt; matches!(failed, Err(ReadEnd::Failed)));
    }
    Ok(())
}

#[test]
fn a_prefix_is_written_before_a_failure(rt: HostRuntime) -> Result<(), Fail> {
    let alloc = rt.alloc();
    for failing in 1..12 {
        let mut sink = MemorySink::new(alloc, 100, [failing].to_vec(alloc)?, 5)?;
        let written = write_all(&mut sink, ANSWER);
        let held = (5 * (failing as usize - 1)).min(ANSWER.len());
        assert_eq!(rt; written.is_err(), held < ANSWER.len());
        assert_eq!(rt; sink.bytes(), &ANSWER[..held]);
    }
    Ok(())
}

#[test]
fn a_full_sink_has_a_prefix(rt: HostRuntime) -> Result<(), Fail> {
    let mut small = MemorySink::new(rt.alloc(), 10, Vec::new(rt.alloc()), 100)?;
    assert!(rt; matches!(write_all(&mut small, ANSWER), Err(Failed)));
    assert_eq!(rt; small.bytes(), &ANSWER[..10]);
    Ok(())
}

#[test]
fn bytes_that_go_nowhere_are_counted(rt: HostRuntime) {
    let mut null = NullSink::new();
    assert!(rt; write_all(&mut null, ANSWER).is_ok());
    assert_eq!(rt; null.taken(), ANSWER.len() as u64);
}

#[test]
fn a_standard_sink_has_all(rt: HostRuntime) {
    let mut held = Vec::new(rt.alloc());
    assert!(rt; write_all(&mut StdSink::new(&mut held), ANSWER).is_ok());
    assert_eq!(rt; held.as_slice(), ANSWER);
}

#[test]
fn a_full_standard_sink_has_a_prefix(rt: HostRuntime) {
    let mut ten = [0; 10];
    let written = write_all(&mut StdSink::new(&mut ten[..]), ANSWER);
    assert!(rt; matches!(written, Err(Failed)));
    assert_eq!(rt; ten.as_slice(), &ANSWER[..10]);
}

#[test]
fn words_keep_their_order(rt: HostRuntime) -> Result<(), Fail> {
    let mut words = Words::new(rt.alloc());
    words.push("surfaces")?;
    words.push("")?;
    assert_eq!(rt; words.len(), 2);
    assert_eq!(rt; words.word(0), "surfaces");
    assert_eq!(rt; words.word(1), "");
    Ok(())
}
