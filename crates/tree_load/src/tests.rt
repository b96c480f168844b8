// The load generator and runs of its calls, against other implementations.
ghost use Rattle.std.specs.Prelude.{◌<◌};

mod plans;
mod runs;

use crate::StatedCalls;
use plans::{
    CLOSED, CLOSED_COUNTS, ENDING, ENDING_COUNTS, KINDS, KINDS_COUNTS, KINDS_LATER, PAIRS,
    PAIRS_COUNTS, PAIRS_LATER, PAIRS_OPENED,
};
use runs::{run, tells};
use std::test::Fail;
use tree_core::Call;

fn first_calls(nodes: u16, seed: u64) -> [Call; 4]
    requires { 0 < nodes }
{
    let mut stated = StatedCalls::of(nodes, seed);
    [
        stated.next_call(),
        stated.next_call(),
        stated.next_call(),
        stated.next_call(),
    ]
}

fn call(node: u16, count: u32) -> Call {
    Call::Generate {
        node,
        count,
        strength: 0,
        pr: false,
    }
}

#[test]
fn a_seed_states_the_calls_of_another_implementation(rt: HostRuntime) {
    assert_eq!(rt;
        first_calls(4, 1),
        [call(2, 40), call(1, 10), call(0, 39), call(2, 32)]
    );
    assert_eq!(rt;
        first_calls(2, 1),
        [call(0, 40), call(1, 10), call(0, 39), call(0, 32)]
    );
    assert_eq!(rt;
        first_calls(3, 1),
        [call(2, 40), call(0, 10), call(0, 39), call(0, 32)]
    );
    assert_eq!(rt;
        first_calls(63, 0),
        [call(44, 52), call(57, 42), call(34, 32), call(37, 42)]
    );
    assert_eq!(rt;
        first_calls(5, u64::MAX),
        [call(3, 60), call(3, 5), call(2, 24), call(2, 51)]
    );
}

#[test]
fn runs_end_with_the_counts_of_another_implementation(rt: HostRuntime) -> Result<(), Fail> {
    let alloc = rt.alloc();
    assert_eq!(rt; run(alloc, PAIRS, 0, 1, 0, PAIRS_OPENED)?, true);
    assert_eq!(rt; run(alloc, PAIRS, 2000, 1, 0, PAIRS_COUNTS)?, true);
    assert_eq!(rt; run(alloc, CLOSED, 10, 1, 10, CLOSED_COUNTS)?, true);
    assert_eq!(rt; run(alloc, KINDS, 150, 7, 0, KINDS_COUNTS)?, true);
    assert_eq!(rt; run(alloc, ENDING, 40, 3, 21, ENDING_COUNTS)?, true);
    Ok(())
}

#[test]
fn counts_are_told_as_another_implementation_counts(rt: HostRuntime) -> Result<(), Fail> {
    let alloc = rt.alloc();
    assert_eq!(rt; tells(alloc, PAIRS, 0, 1, PAIRS_OPENED)?, true);
    assert_eq!(rt; tells(alloc, PAIRS, 20_000, 1, PAIRS_LATER)?, true);
    assert_eq!(rt; tells(alloc, KINDS, 20_000, 5, KINDS_LATER)?, true);
    Ok(())
}
