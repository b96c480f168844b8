//! Speaks the frames of `rbgtree` by hand: lines of text become request frames, and reply frames become lines of text.
//!
//! - `rbg_talk ask` reads lines from standard input and writes request frames to standard output;
//! - `rbg_talk show` reads reply frames and prints a line of each;
//! - `rbg_talk bytes` reads reply frames and writes the bytes that those to Generate give.
//!
//! The modules:
//!
//! - `top`: what each command does, `run`;
//! - `ask`: an input of lines, `call`: what one of them says, `words`: what its words mean, `grammar`: what lines are made of;
//! - `tell`: an input of reply frames, `shown`: the line of one of them, `way`: what is made of it;
//! - `status`: how the program ends, as a number and as a line;
//! - `host`: the real input and output.
#![tactic(auto)]

mod ask;
mod call;
mod grammar;
mod host;
mod shown;
mod status;
mod tell;
mod top;
mod way;
mod words;

use host::{Reading, Writing};
use status::Status;
use std::process::ExitCode;
use std::{env, io};

// The words after the program's name.
fn arguments(rt: &HostRuntime) -> io::Result<Vec<String>> {
    let mut words = Vec::new(rt.alloc());
    for word in env::args(rt)?.skip(1) {
        words.push(word)?;
    }
    Ok(words)
}

// Runs the program. Words that are no text are no command.
fn run(rt: &HostRuntime) -> Status {
    let words = match arguments(rt) {
        Ok(words) => words,
        Err(error) if error.kind() == io::ErrorKind::OutOfMemory => return Status::Memory,
        Err(_) => return Status::Usage,
    };
    let mut input = Reading::new(rt.stdin());
    let mut output = Writing::new(rt.stdout());
    top::run(rt.alloc(), &words, &mut input, &mut output)
}

fn main(rt: HostRuntime) -> ExitCode {
    let status = run(&rt);
    let _ = status.line(&mut Writing::new(rt.stderr()));
    ExitCode::from(status.number())
}

#[cfg(test)]
mod tests;
