//! A random bit generator that answers request frames.
//!
//! - `top`: what each command does, `run`;
//! - `files` and `seeds`: what is read from files, the plan and its nodes' seeds;
//! - `serve`: a tree over them, and one session of frames on it;
//! - `load`: stated calls on such a tree, and `counts`, the lines that are printed of them;
//! - `check`: one start of each source of a configuration, and `printed`, the lines that are printed of it;
//! - `replaying`: a text that is read from a file, and what is printed of it;
//! - `status` and `lines`: how the program ends, as a number and as a line;
//! - `world`: what is asked of the outside beside input and output, `memory_world` and `host` what meets it.
#![tactic(auto)]

mod check;
mod counts;
mod files;
mod host;
mod lines;
mod load;
mod memory_world;
mod printed;
mod replaying;
mod seeds;
mod serve;
mod status;
mod top;
mod world;

use host::{OsWorld, Reading, Writing};
use status::Status;
use std::process::ExitCode;
use std::{env, io};

// The words after the program's name.
fn words(rt: &HostRuntime) -> io::Result<Vec<String>> {
    let mut words = Vec::new(rt.alloc());
    for word in env::args(rt)?.skip(1) {
        words.push(word)?;
    }
    Ok(words)
}

// Runs the program. Words that are no text are no command.
fn run(rt: &HostRuntime) -> Status {
    let words = match words(rt) {
        Ok(words) => words,
        Err(error) if error.kind() == io::ErrorKind::OutOfMemory => return Status::Memory,
        Err(_) => return Status::Usage,
    };
    let mut input = Reading::new(rt.stdin());
    let mut output = Writing::new(rt.stdout());
    top::run(
        rt.alloc(),
        &words,
        &mut OsWorld::new(rt),
        &mut input,
        &mut output,
    )
}

fn main(rt: HostRuntime) -> ExitCode {
    let status = run(&rt);
    let _ = status.line(&mut Writing::new(rt.stderr()));
    ExitCode::from(status.number())
}

#[cfg(test)]
mod answer_tests;
#[cfg(test)]
mod check_tests;
#[cfg(test)]
mod load_tests;
#[cfg(test)]
mod replay_tests;
#[cfg(test)]
mod tests;
#[cfg(test)]
mod world_tests;
