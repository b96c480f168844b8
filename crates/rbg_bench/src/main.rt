//! Does some work many times, for timing, and prints one line of what came of it:
//!
//! - `rbg_bench MECHANISM BYTES TIMES` generates BYTES bytes TIMES times by one DRBG, as `hmac-sha-256` or `ctr-aes-128`, and prints
//!   the SHA-256 of all of them in hexadecimal;
//! - `rbg_bench PRIMITIVE TIMES`: with `aes-128-block` it encrypts the block of zeros TIMES times, each time what the last one gave,
//!   with the key 00 to 0f, and prints the last block in hexadecimal; with `aes-256-four-blocks` it does so with four blocks of
//!   zeros at once and the key 00 to 1f, and prints the last of the four; with `sha-256` it prints the SHA-256 of TIMES times 65,536
//!   zeros;
//! - `rbg_bench FORM SAMPLES TIMES` runs both continuous health tests over SAMPLES pseudo-random samples TIMES times, each time from
//!   fresh tests, and prints how many samples were tested and how many of the runs alarmed: with `health-step` the tests get one
//!   sample a call, with `health-slice` all of them in one call.
//!
//! - `rbg_bench reseeded MECHANISM BYTES TIMES` is like the first, with a reseed before each generate;
//! - `rbg_bench calls NODE BYTES TIMES` reads a tree's plan from standard input, opens a tree over samples that count up, generates
//!   BYTES bytes on node NODE TIMES times, and prints how many of these calls were Done, and the SHA-256 of all bytes; `calls-pr` asks
//!   prediction resistance;
//! - `rbg_bench draws BYTES TIMES` reads a plan in the same way, starts its source 0, draws BYTES bytes on it TIMES times, and prints how
//!   many draws there were, and the SHA-256 of all bytes.
//!
//! Other words are a line on standard error and status 1; so is a plan that is refused, or that has not what is asked. The modules:
//!
//! - `job`, `tree_job`: what the words ask for; `words`: the number that a word writes;
//! - `line`, `tree_line`: the line that is printed;
//! - `calls`, `draws`: work on a tree and on a source, over the samples of `ramp`, and its `outcome`;
//! - `outputs`, `worker`: a mechanism at work; `primitives`: a primitive; `runs`, `samples`: the health tests.
#![tactic(auto)]

mod calls;
mod draws;
mod job;
mod line;
mod outcome;
mod outputs;
mod primitives;
mod ramp;
mod runs;
mod samples;
#[cfg(test)]
mod tests;
mod tree_job;
mod tree_line;
mod words;
mod worker;

use std::io::Read;
use std::process::ExitCode;
use std::{env, io};
use tree_config::TreePlan;

// The words after the program's name.
fn arguments(rt: &HostRuntime) -> io::Result<Vec<String>> {
    let mut words = Vec::new(rt.alloc());
    for word in env::args(rt)?.skip(1) {
        words.push(word)?;
    }
    Ok(words)
}

// The plan of a tree that standard input has.
fn plan(rt: &HostRuntime) -> io::Result<Option<TreePlan>> {
    let mut text = Vec::new(rt.alloc());
    rt.stdin().read_to_end(&mut text)?;
    Ok(TreePlan::read(rt.alloc(), &text).ok())
}

// The line that the words ask for, where they ask for one and it is to be had.
fn line_asked(rt: &HostRuntime, words: &[String]) -> io::Result<Option<String>> {
    if let Some(job) = job::read_job(words) {
        return Ok(Some(line::line_of(rt.alloc(), job)?));
    }
    let Some(job) = tree_job::read_tree_job(words) else {
        return Ok(None);
    };
    let Some(plan) = plan(rt)? else {
        return Ok(None);
    };
    Ok(tree_line::tree_line(rt.alloc(), plan, job).ok())
}

fn main(rt: HostRuntime) -> io::Result<ExitCode> {
    let words = arguments(&rt)?;
    let Some(line) = line_asked(&rt, &words)? else {
        eprintln!(rt;
            "usage: rbg_bench MECHANISM BYTES TIMES | reseeded MECHANISM BYTES TIMES | PRIMITIVE TIMES | health-step|health-slice SAMPLES TIMES | calls|calls-pr NODE BYTES TIMES <PLAN | draws BYTES TIMES <PLAN"
        )?;
        return Ok(ExitCode::from(1));
    };
    println!(rt; "{line}")?;
    Ok(ExitCode::SUCCESS)
}
