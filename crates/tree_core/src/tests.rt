// Calls on small trees, with replies, bytes and counts that an independent implementation computes.
mod held;
mod memory;
mod rows;
pub(crate) mod runs;

use crate::OpenRefusal;
use rows::{
    AGAIN, ALARM, ENDED, ENDED_COUNTS, FAILED, FOUR, NOTHING, ONE, ONE_COUNTS, ORPHAN, OUTPUTS,
    OUTPUTS_COUNTS, PAIR, PAIRED, PAIRED_COUNTS, SOURCE, START_UP, START_UP_COUNTS, STRING,
};
use runs::{first_wrong, opened, opening, over, ramp};
use sample_source::{Faulty, Recorded};
use std::test::Fail;

// Each row is a plan, how many samples its source has, the places from .. to where they are 9, the calls, and the counts behind them.
#[test]
fn calls_have_these_replies_bytes_and_counts(rt: HostRuntime) -> Result<(), Fail> {
    let alloc = rt.alloc();
    for (plan, total, from, to, calls, at_end) in [
        (PAIR, 65536, 0, 0, [PAIRED, ""], PAIRED_COUNTS),
        (PAIR, 65536, 0, 0, [PAIRED, STRING], ""),
        (PAIR, 65536, 0, 0, [PAIRED, AGAIN], ""),
        (PAIR, 65536, 0, 0, [PAIRED, ORPHAN], ""),
        (PAIR, 65536, 1150, 1154, [PAIRED, ALARM], ""),
        (PAIR, 65536, 1020, 1024, [START_UP, ""], START_UP_COUNTS),
        (PAIR, 1103, 0, 0, [ENDED, ""], ENDED_COUNTS),
        (SOURCE, 65536, 0, 0, [ONE, ""], ONE_COUNTS),
        (FOUR, 65536, 0, 0, [OUTPUTS, ""], OUTPUTS_COUNTS),
        (FOUR, 65536, 0, 0, [NOTHING, ""], ""),
    ] {
        let tree = over(alloc, plan, total, from, to)?;
        assert_eq!(rt; first_wrong(alloc, tree, calls, at_end)?, 0, "of {calls:?}");
    }
    Ok(())
}

#[test]
fn a_read_fails(rt: HostRuntime) -> Result<(), Fail> {
    let alloc = rt.alloc();
    let mut fail = Vec::new(alloc);
    fail.push(1u64)?;
    let mut sources = Vec::new(alloc);
    sources.push(Faulty::new(ramp(alloc, 65536, 1, &[])?, 4096, fail))?;
    let tree = opened(alloc, PAIR, sources, 0, 48)?;
    assert_eq!(rt; first_wrong(alloc, tree, [FAILED, ""], "")?, 0);
    Ok(())
}

#[test]
fn the_least_short_seed_is_named(rt: HostRuntime) -> Result<(), Fail> {
    let alloc = rt.alloc();
    let mut sources = Vec::new(alloc);
    sources.push(Recorded::new(ramp(alloc, 65536, 1, &[])?))?;
    let want = OpenRefusal::SeedShort {
        node: 2,
        have: 47,
        need: 48,
    };
    match opening(alloc, FOUR, sources, 0, 47)? {
        Ok(_) => Err(Fail::from("opened")),
        Err(why) => {
            assert_eq!(rt; why, want);
            Ok(())
        }
    }
}
