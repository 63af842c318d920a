// The program: `settle COMMAND ...`, or one command a line on standard input.
#![tactic(auto)]

mod ask;
mod beside;
mod check;
mod console;
mod held_book;
mod inode;
mod load;
mod new_book;
mod options;
mod post;
mod save;
mod save_fault;
mod script;
mod sheet;
mod show_book;
mod teller;
mod words;
mod work;

use console::{Call, Console};
use std::cell::Cell;
use std::env;
use std::fs::File;
use std::io::Read;
use std::os::fd::AsRawFd;
use std::process::ExitCode;
use std::rt::{Env, Files, Runtime};

// The descriptors of the standard streams are the first ones.
const STREAMS: i32 = 3;

// Status 1 where the one command of a call found something wrong, which it has said, and where input or output fails.
fn main(rt: HostRuntime) -> ExitCode {
    let unheard = Cell::new(false);
    match run(&rt, rt.stdin(), &unheard) {
        Ok(sound) if sound && !unheard.get() => ExitCode::SUCCESS,
        Ok(_) => ExitCode::FAILURE,
        Err(e) => {
            let _ = eprintln!(rt; "settle: {e}");
            ExitCode::FAILURE
        }
    }
}

// With no argument the commands are those of the input.
fn run<R: Runtime + Files<File = File> + AllocGlobal, I: Read + Drop>(
    rt: &R,
    input: I,
    unheard: &Cell<bool>,
) -> anyhow::Result<bool> {
    let _streams = hold_streams(rt)?;
    let call = Call::Single;
    let console = Console { rt, call, unheard };
    let Ok(arguments) = arguments(rt) else {
        return console.refuse("the arguments cannot be read; each must be UTF-8 text");
    };
    if arguments.is_empty() {
        script::run(rt, input, unheard)?;
        return Ok(true);
    }
    let words: Vec<&str> = arguments
        .iter()
        .map(|word| word.as_str())
        .collect(rt.alloc())?;
    console.command(&words)
}

// Of the standard streams those that the caller closed. Their descriptors are taken, by something that cannot be written, so that no book gets
// one and is written to as standard output.
fn hold_streams<R: Files<File = File> + AllocGlobal>(rt: &R) -> anyhow::Result<Vec<File>> {
    let mut held = Vec::new(rt.alloc());
    for _ in 0..STREAMS {
        match File::open(rt, "/") {
            Ok(folder) if folder.as_raw_fd() < STREAMS => held.push(folder)?,
            _ => break,
        }
    }
    Ok(held)
}

fn arguments<R: Env + AllocGlobal>(rt: &R) -> anyhow::Result<Vec<String>> {
    Ok(env::args(rt)?.skip(1).collect(rt.alloc())?)
}
