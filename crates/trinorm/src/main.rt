//! The program, which passes its words, its standard input and its standard output to the workbench and exits with the
//! status.
#![tactic(auto)]

use std::process::ExitCode;
use std::{env, io};
use text_io::{StdSink, StdSource, Words};
use workbench::{exit_code, run};

/// The exit status if memory runs out before the run.
const NO_MEMORY: u8 = 8;

/// The exit status if the program's words cannot be read.
const NO_WORDS: u8 = 9;

/// The words after the program's name. Fails with the exit status if they cannot be read.
fn words_of(rt: &HostRuntime) -> Result<Words, u8> {
    let arguments = env::args(rt).map_err(|fault| fault_code(&fault))?;
    let mut words = Words::new(rt.alloc());
    for word in arguments.skip(1) {
        words.push(word.as_str()).map_err(|_| NO_MEMORY)?;
    }
    Ok(words)
}

fn fault_code(fault: &io::Error) -> u8 {
    if fault.kind() == io::ErrorKind::OutOfMemory {
        NO_MEMORY
    } else {
        NO_WORDS
    }
}

fn main(rt: HostRuntime) -> ExitCode {
    let words = match words_of(&rt) {
        Ok(words) => words,
        Err(code) => return ExitCode::from(code),
    };
    let mut source = StdSource::new(rt.stdin());
    let mut sink = StdSink::new(rt.stdout());
    let status = run(rt.alloc(), &words, &mut source, &mut sink);
    ExitCode::from(exit_code(status))
}
