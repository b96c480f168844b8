//! Calls on a table of counters, for timing: `turn_bench CALLERS TIMES WORK` gives each of CALLERS callers a thread and a counter of its own.
//! Each takes the turn of its counter TIMES times, does WORK rounds of work with the value, commits an entry that adds 1 or 2 by what came
//! out, and puts the value back. It prints how many calls there were and what they added. With one caller nobody else is there. Other words are a
//! line on standard error and status 1.
//!
//! - `job`: what the words ask for;
//! - `work`: the calls that are timed.
#![tactic(auto)]

mod job;
mod work;

use std::process::ExitCode;
use std::{env, io};
use turn_table::counters;

// The words after the program's name.
fn words(rt: &HostRuntime) -> io::Result<Vec<String>> {
    let mut words = Vec::new(rt.alloc());
    for word in env::args(rt)?.skip(1) {
        words.push(word)?;
    }
    Ok(words)
}

fn main(rt: HostRuntime) -> io::Result<ExitCode> {
    let words = words(&rt)?;
    let Some(job) = job::read_job(&words) else {
        eprintln!(rt; "usage: turn_bench CALLERS TIMES WORK")?;
        return Ok(ExitCode::from(1));
    };
    let Ok((turns, mut passes)) = counters::open(rt.alloc(), u16::from(job.callers), job.callers)
    else {
        eprintln!(rt; "no memory")?;
        return Ok(ExitCode::from(1));
    };
    work::run_all(&rt, &turns, passes.as_mut_slice(), job);
    let Ok(closed) = counters::close(turns, rt.alloc(), passes) else {
        eprintln!(rt; "no memory")?;
        return Ok(ExitCode::from(1));
    };
    println!(rt;
        "{} calls, {} added",
        closed.calls,
        work::total(&closed.values)
    )?;
    Ok(ExitCode::SUCCESS)
}
