//! Decodes request frames, for timing: those of standard input, at most 16,777,216 bytes, 1,000 times in a row, as one stream. It prints how
//! many frames there are up to the first byte with which none goes on. An input that is longer is a line on standard error and status 1.
//!
//! - `frames`: the work that is timed.
#![tactic(auto)]

mod frames;

use frames::{MOST, frames_in_copies};
use std::io::{self, Read};
use std::process::ExitCode;

// How often the stream is decoded.
const TIMES: u16 = 1000;

fn main(rt: HostRuntime) -> io::Result<ExitCode> {
    let mut stream = Vec::new(rt.alloc());
    rt.stdin().read_to_end(&mut stream)?;
    if MOST < stream.len() {
        eprintln!(rt; "more than 16777216 bytes")?;
        return Ok(ExitCode::from(1));
    }
    println!(rt; "{} frames", frames_in_copies(&stream, TIMES))?;
    Ok(ExitCode::SUCCESS)
}
