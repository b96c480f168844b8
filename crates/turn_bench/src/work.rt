// The calls that are timed.
ghost use Rattle.std.specs.Prelude.{◌≡◌, ◌<◌, ◌≤◌, ◌+◌, ◌/◌, ◌^◌, All, length, sum, true, if◌then◌else◌};
ghost use Rattle.turn_table.specs.Counters.{IsReady};
ghost use Rattle.turn_bench.specs.Work.{state_after};

use crate::job::Job;
use std::sync::Wait;
use std::thread;
use std::thread::Threads;
use turn_table::counters::{self, Counters};
use turn_table::{Pass, Turns};

// 1, and 1 more where the top bit of a linear congruential generator is set, so many rounds after this state.
#[inline(never)]
fn amount_after(state: u64, rounds: u32) -> u32
    ensures { result ≡ 1 + state_after rounds state / 2 ^ 63 }
{
    let mut now = state;
    for done in 0..rounds {
        now = now
            .wrapping_mul(6_364_136_223_846_793_005)
            .wrapping_add(1_442_695_040_888_963_407);
    }
    1 + (now >> 63) as u32
}

// One call: the turn is taken, worked on and given back. Whether an entry was added.
fn call<R: Wait>(
    rt: &R,
    turns: &Turns<Counters>,
    pass: &mut Pass<Counters>,
    slot: u16,
    rounds: u32,
) -> bool
    requires ready { IsReady turns.now.table turns.now.callers pass.old }
    requires slot { slot < turns.now.table.slots }
    ensures ready { IsReady turns.entry.now.table turns.entry.now.callers pass.new }
    ensures counted { length pass.new.view.mine ≡ length pass.old.view.mine + (if result then 1 else 0) }
{
    let value = counters::take(rt, turns, pass, slot);
    let amount = amount_after(value, rounds);
    counters::settle(turns, pass, slot, value, amount).is_some()
}

// So many calls of one caller, on the counter of its number. How many entries were added.
fn run<R: Wait>(
    rt: &R,
    turns: &Turns<Counters>,
    pass: &mut Pass<Counters>,
    callers: u8,
    times: u32,
    rounds: u32,
) -> u32
    requires ready { IsReady turns.now.table turns.now.callers pass.old }
    requires slots { (0 < callers) × (callers ≡ turns.now.table.slots) }
    ensures ready { IsReady turns.entry.now.table turns.entry.now.callers pass.new }
    ensures counted { length pass.new.view.mine ≡ length pass.old.view.mine + result }
    ensures most { result ≤ times }
{
    let slot = u16::from(pass.caller() % callers);
    let mut added = 0;
    for i in 0..times {
        if call(rt, turns, pass, slot, rounds) {
            added += 1;
        }
    }
    added
}

// The calls of all callers, each in a thread of its own.
pub fn run_all<R: Threads + Wait + Sync>(
    rt: &R,
    turns: &Turns<Counters>,
    passes: &mut [Pass<Counters>],
    job: Job,
)
    requires ready { All (λ p. IsReady turns.now.table turns.now.callers p) passes.old }
    requires slots { (0 < job.callers) × (job.callers ≡ turns.now.table.slots) }
    ensures ready { All (λ p. IsReady turns.entry.now.table turns.entry.now.callers p) passes.new }
    ensures count { length passes.new ≡ length passes.old }
{
    let Job {
        callers,
        times,
        rounds,
    } = job;
    thread::for_each_mut(
        rt,
        passes,
        callers as usize,
        &|_, pass| {
            run(rt, turns, pass, callers, times, rounds);
        },
    );
}

// The values added up, modulo 2^64.
pub fn total(values: &[u64]) -> u64 {
    let mut total = 0u64;
    for value in values {
        total = total.wrapping_add(*value);
    }
    total
}
