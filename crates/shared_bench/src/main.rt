//! Calls on a tree, for timing: `shared_bench CALLERS BYTES TIMES` reads a tree's plan from standard input, which has no sources, and opens the
//! tree with a seed that counts up for each node. With CALLERS 1 to 64 the tree is shared: each caller has a thread of its own, in which it
//! asks the node of its number, modulo the number of nodes, for BYTES bytes TIMES times. With CALLERS 0 the tree of one caller is asked in
//! the same way, at node 0. It prints how many of the calls were Done, and the sum of the first eight bytes of all their outputs as numbers,
//! lowest byte first, modulo 2^64. A shared tree is closed then. Where there is no memory for that, the last caller asks once more, and what
//! that comes to is printed too. Then, and after other words, another plan, or want of memory, there is a line on standard error and status 1.
//!
//! - `job`: what the words ask for;
//! - `tree`: the tree that is opened;
//! - `calls`: the calls that are timed; `tally`: what they come to.
#![tactic(auto)]

mod calls;
mod job;
mod tally;
mod tree;

use calls::Outcome;
use job::Job;
use std::io::Read;
use std::process::ExitCode;
use std::sync::Wait;
use std::thread::Threads;
use std::{env, io};
use tally::Tally;
use tree_config::TreePlan;

// The words after the program's name.
fn words(rt: &HostRuntime) -> io::Result<Vec<String>> {
    let mut words = Vec::new(rt.alloc());
    for word in env::args(rt)?.skip(1) {
        words.push(word)?;
    }
    Ok(words)
}

// The plan of a tree without sources that standard input has.
fn plan(rt: &HostRuntime) -> io::Result<Option<TreePlan>> {
    let mut text = Vec::new(rt.alloc());
    rt.stdin().read_to_end(&mut text)?;
    Ok(TreePlan::read(rt.alloc(), &text).ok())
}

fn main(rt: HostRuntime) -> io::Result<ExitCode> {
    let words = words(&rt)?;
    let Some(job) = job::read_job(&words) else {
        eprintln!(rt; "usage: shared_bench CALLERS BYTES TIMES <PLAN")?;
        return Ok(ExitCode::from(1));
    };
    let Some(plan) = plan(&rt)? else {
        eprintln!(rt; "shared_bench: no plan")?;
        return Ok(ExitCode::from(1));
    };
    let Some(Outcome { tally, again }) = calls::outcome_of(&rt, rt.alloc(), plan, job) else {
        eprintln!(rt; "shared_bench: the tree is not opened")?;
        return Ok(ExitCode::from(1));
    };
    let Tally { done, sum } = tally;
    println!(rt; "{done} done, {sum}")?;
    let Some(Tally { done, sum }) = again else {
        return Ok(ExitCode::SUCCESS);
    };
    println!(rt; "{done} done, {sum}")?;
    eprintln!(rt; "shared_bench: the tree is not closed")?;
    Ok(ExitCode::from(1))
}
