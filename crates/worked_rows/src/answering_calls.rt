//! Calls that allocate and have no test in a crate of their own: each returns its ordinary result.
use out_of_memory::NoMemory;
use text_io::{Words, append, append_decimal, append_signed};
use workbench::{Status, outcome_of, run_steadily};

#[test]
fn texts_and_numbers_are_appended(rt: HostRuntime) -> Result<(), NoMemory> {
    let alloc = rt.alloc();
    let mut out = Vec::new(alloc);
    append(&mut out, b"vec ")?;
    append_decimal(alloc, &mut out, 0)?;
    append(&mut out, b"")?;
    append_decimal(alloc, &mut out, 340282366920938463463374607431768211455)?;
    append_signed(alloc, &mut out, 0)?;
    append_signed(alloc, &mut out, -9223372036854775808)?;
    append_signed(alloc, &mut out, 12)?;
    assert_eq!(rt;
        out.as_slice(),
        b"vec 03402823669209384634633746074317682114550-922337203685477580812".as_slice()
    );
    Ok(())
}

#[test]
fn a_run_without_disturbance_ends(rt: HostRuntime) -> Result<(), NoMemory> {
    let alloc = rt.alloc();
    let mut words = Words::new(alloc);
    words.push("surfaces")?;
    let mut input = Vec::new(alloc);
    append(&mut input, b"sig bkaagj\n")?;
    assert!(rt; run_steadily(alloc, &words, input) == Status::Done);
    assert!(rt; run_steadily(alloc, &words, Vec::new(alloc)) == Status::Input);
    Ok(())
}

#[test]
fn an_input_in_memory_is_answered(rt: HostRuntime) -> Result<(), NoMemory> {
    let alloc = rt.alloc();
    let mut words = Words::new(alloc);
    words.push("sig")?;
    let outcome = outcome_of(alloc, &words, b"tri 1\n0:1023 0:1023 0:1230 0:3012\n")?;
    assert!(rt; outcome.status() == Status::Done);
    assert_eq!(rt; outcome.text(), b"bkaagj\n".as_slice());
    let outcome = outcome_of(alloc, &words, b"tri")?;
    assert!(rt; outcome.status() == Status::Input);
    Ok(())
}
