// Long runs of calls over plans of all kinds.
mod closed;
mod deep;
mod every_kind;
mod faulty;

use crate::tests::runs::{counts, first_other, opened, ramp};
use sample_source::{Faulty, Recorded};
use std::test::Fail;

#[test]
fn all_kinds_over_two_sources(rt: HostRuntime) -> Result<(), Fail> {
    let alloc = rt.alloc();
    let mut sources = Vec::new(alloc);
    sources.push(Recorded::new(ramp(alloc, 60000, 7, &[(1, 7000, 7006)])?))?;
    let others = [(0, 5000, 5007), (3, 20000, 20008)];
    sources.push(Recorded::new(ramp(alloc, 60000, 1, &others)?))?;
    let mut tree = opened(alloc, every_kind::PLAN, sources, 3, 63)?;
    assert_eq!(rt; first_other(alloc, &mut tree, every_kind::CALLS)?, 0);
    assert_eq!(rt; counts(alloc, &tree)?.as_str(), every_kind::COUNTS);
    Ok(())
}

#[test]
fn a_path_of_eight_nodes(rt: HostRuntime) -> Result<(), Fail> {
    let alloc = rt.alloc();
    let mut sources = Vec::new(alloc);
    sources.push(Recorded::new(ramp(alloc, 60000, 3, &[(9, 9000, 9005)])?))?;
    let mut tree = opened(alloc, deep::PLAN, sources, 3, 63)?;
    assert_eq!(rt; first_other(alloc, &mut tree, deep::CALLS)?, 0);
    assert_eq!(rt; counts(alloc, &tree)?.as_str(), deep::COUNTS);
    Ok(())
}

#[test]
fn samples_that_alarm_and_end(rt: HostRuntime) -> Result<(), Fail> {
    let alloc = rt.alloc();
    let mut sources = Vec::new(alloc);
    let others = [(9, 1020, 1024), (7, 2300, 2303)];
    sources.push(Recorded::new(ramp(alloc, 2303, 1, &others)?))?;
    let mut tree = opened(alloc, closed::PLAN, sources, 3, 63)?;
    assert_eq!(rt; first_other(alloc, &mut tree, closed::CALLS)?, 0);
    assert_eq!(rt; counts(alloc, &tree)?.as_str(), closed::COUNTS);
    Ok(())
}

#[test]
fn reads_that_fail(rt: HostRuntime) -> Result<(), Fail> {
    let alloc = rt.alloc();
    let mut fail = Vec::new(alloc);
    for read in [2u64, 5, 9, 14, 20, 31] {
        fail.push(read)?;
    }
    let mut sources = Vec::new(alloc);
    sources.push(Faulty::new(ramp(alloc, 20000, 1, &[])?, 700, fail))?;
    let mut tree = opened(alloc, faulty::PLAN, sources, 3, 63)?;
    assert_eq!(rt; first_other(alloc, &mut tree, faulty::CALLS)?, 0);
    assert_eq!(rt; counts(alloc, &tree)?.as_str(), faulty::COUNTS);
    Ok(())
}
