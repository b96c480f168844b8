// Calls on counters, by one thread and by four.
ghost use Rattle.std.specs.Prelude.{◌≡◌, ◌≤◌, All, IfErr, IfOk, length};
ghost use Rattle.turn_table.specs.Counters.{HasBoth, HasOnly, IsReady};

use crate::counters::{self, Counters};
use crate::{Held, Pass, Turns};
use std::sync::Wait;
use std::sync::atomic::{AtomicBool, Ordering};
use std::test::Fail;
use std::thread;
use std::thread::Threads;

#[test]
fn a_turn_goes_from_caller_to_caller(rt: HostRuntime) -> Result<(), Fail> {
    let Ok((turns, mut passes)) = counters::open(rt.alloc(), 1, 2) else {
        panic!(rt; "no memory")
    };
    let Some(mut second) = passes.pop() else {
        panic!(rt; "no pass")
    };
    let Some(mut first) = passes.pop() else {
        panic!(rt; "no pass")
    };
    assert!(rt; first.caller() == 1 && second.caller() == 2);

    let Ok(value) = counters::try_take(&turns, &mut first, 0) else {
        panic!(rt; "held")
    };
    let Err(held) = counters::try_take(&turns, &mut second, 0) else {
        panic!(rt; "taken twice")
    };
    let want = Held {
        slot: 0,
        holder: 1,
        target: 0,
    };
    assert_eq!(rt; held, want);
    assert_eq!(rt; counters::settle(&turns, &mut first, 0, value, 5), Some(5));

    let Ok(value) = counters::try_take(&turns, &mut second, 0) else {
        panic!(rt; "held")
    };
    assert_eq!(rt; value, 5);
    assert_eq!(rt;
        counters::settle(&turns, &mut second, 0, value, 7),
        Some(12)
    );
    assert_eq!(rt; counters::look(&turns, &mut first), 2);
    assert!(rt; first.calls() == 1 && second.calls() == 1);

    let passes = vec![in rt.alloc(); first, second]?;
    let Ok(closed) = counters::close(turns, rt.alloc(), passes) else {
        panic!(rt; "no memory")
    };
    assert_eq!(rt; closed.calls, 2);
    assert_eq!(rt; closed.values.as_slice(), [12].as_slice());
    Ok(())
}

// Adds 1 to two counters by turns, so many times in all.
fn run<R: Wait>(rt: &R, turns: &Turns<Counters>, pass: &mut Pass<Counters>, times: u32)
    requires ready { IsReady turns.now.table turns.now.callers pass.old }
    requires slots { 2 ≤ turns.now.table.slots }
    ensures ready { IsReady turns.entry.now.table turns.entry.now.callers pass.new }
{
    for i in 0..times {
        counters::add(rt, turns, pass, (i % 2) as u16, 1);
    }
}

// The same in a thread for each pass.
fn run_all<R: Threads + Wait + Sync>(
    rt: &R,
    turns: &Turns<Counters>,
    passes: &mut [Pass<Counters>],
    times: u32,
)
    requires ready { All (λ p. IsReady turns.now.table turns.now.callers p) passes.old }
    requires slots { 2 ≤ turns.now.table.slots }
    ensures ready { All (λ p. IsReady turns.entry.now.table turns.entry.now.callers p) passes.new }
    ensures count { length passes.new ≡ length passes.old }
{
    thread::for_each_mut(rt, passes, 4, &|_, pass| run(rt, turns, pass, times));
}

#[test]
fn calls_of_four_threads_add_up(rt: HostRuntime) -> Result<(), Fail> {
    let Ok((turns, mut passes)) = counters::open(rt.alloc(), 2, 4) else {
        panic!(rt; "no memory")
    };
    run_all(&rt, &turns, passes.as_mut_slice(), 10_000);
    for pass in &passes {
        assert_eq!(rt; pass.calls(), 10_000);
    }
    let Ok(closed) = counters::close(turns, rt.alloc(), passes) else {
        panic!(rt; "no memory")
    };
    assert_eq!(rt; closed.calls, 40_000);
    assert_eq!(rt; closed.values.as_slice(), [20_000, 20_000].as_slice());
    Ok(())
}

// One caller takes the turn, says so, and goes on with it for a while. The other begins then, and so finds the turn held.
fn meet<R: Wait>(rt: &R, turns: &Turns<Counters>, pass: &mut Pass<Counters>, taken: &AtomicBool)
    requires ready { IsReady turns.now.table turns.now.callers pass.old }
    requires slots { 2 ≤ turns.now.table.slots }
    ensures ready { IsReady turns.entry.now.table turns.entry.now.callers pass.new }
{
    if pass.caller() == 1 {
        let value = counters::take(rt, turns, pass, 1);
        taken.store(true, Ordering::SeqCst);
        for _ in 0..10_000 {
            thread::yield_now();
        }
        counters::settle(turns, pass, 1, value, 5);
    } else {
        for _ in rt.forever() {
            if taken.load(Ordering::SeqCst) {
                break;
            }
            thread::yield_now();
        }
        counters::add(rt, turns, pass, 1, 7);
    }
}

fn meet_all<R: Threads + Wait + Sync>(
    rt: &R,
    turns: &Turns<Counters>,
    passes: &mut [Pass<Counters>],
    taken: &AtomicBool,
)
    requires ready { All (λ p. IsReady turns.now.table turns.now.callers p) passes.old }
    requires slots { 2 ≤ turns.now.table.slots }
    ensures ready { All (λ p. IsReady turns.entry.now.table turns.entry.now.callers p) passes.new }
    ensures count { length passes.new ≡ length passes.old }
{
    thread::for_each_mut(rt, passes, 2, &|_, pass| meet(rt, turns, pass, taken));
}

#[test]
fn who_finds_a_turn_held_waits_and_takes(rt: HostRuntime) -> Result<(), Fail> {
    let Ok((turns, mut passes)) = counters::open(rt.alloc(), 2, 2) else {
        panic!(rt; "no memory")
    };
    let taken = AtomicBool::new(false);
    meet_all(&rt, &turns, passes.as_mut_slice(), &taken);
    let Ok(closed) = counters::close(turns, rt.alloc(), passes) else {
        panic!(rt; "no memory")
    };
    assert_eq!(rt; closed.calls, 2);
    assert_eq!(rt; closed.values.as_slice(), [0, 12].as_slice());
    Ok(())
}

// Takes the turns of counter 1 and then of counter 0, both on the path of counter 1, or none.
fn take_both(turns: &Turns<Counters>, pass: &mut Pass<Counters>) -> Result<(u64, u64), Held>
    requires ready { IsReady turns.now.table turns.now.callers pass.old }
    requires slots { 2 ≤ turns.now.table.slots }
    ensures took { IfOk result (λ r. HasBoth turns.entry.now.table turns.entry.now.callers r.0 r.1 pass.new) }
    ensures held { IfErr result (λ h. IsReady turns.entry.now.table turns.entry.now.callers pass.new) }
{
    match counters::try_take(turns, pass, 1) {
        Err(held) => Err(held),
        Ok(above) => take_below(turns, pass, above),
    }
}

fn take_below(
    turns: &Turns<Counters>,
    pass: &mut Pass<Counters>,
    above: u64,
) -> Result<(u64, u64), Held>
    requires turn { HasOnly turns.now.table turns.now.callers 1 above pass.old }
    requires slots { 2 ≤ turns.now.table.slots }
    ensures took { IfOk result (λ r. HasBoth turns.entry.now.table turns.entry.now.callers r.0 r.1 pass.new) }
    ensures held { IfErr result (λ h. IsReady turns.entry.now.table turns.entry.now.callers pass.new) }
{
    match turns.try_take(pass, 0, 1) {
        Ok(below) => Ok((above, below)),
        Err(held) => {
            turns.put_back(pass, 1, above);
            Err(held)
        }
    }
}

fn give_both(turns: &Turns<Counters>, pass: &mut Pass<Counters>, above: u64, below: u64)
    requires turn { HasBoth turns.now.table turns.now.callers above below pass.old }
    ensures ready { IsReady turns.entry.now.table turns.entry.now.callers pass.new }
{
    turns.put_back(pass, 0, below);
    turns.put_back(pass, 1, above);
}

#[test]
fn turns_of_a_path_are_taken_in_order(rt: HostRuntime) -> Result<(), Fail> {
    let Ok((turns, mut passes)) = counters::open(rt.alloc(), 2, 2) else {
        panic!(rt; "no memory")
    };
    let Some(mut second) = passes.pop() else {
        panic!(rt; "no pass")
    };
    let Some(mut first) = passes.pop() else {
        panic!(rt; "no pass")
    };
    let Ok((above, below)) = take_both(&turns, &mut first) else {
        panic!(rt; "held")
    };
    let Err(held) = take_both(&turns, &mut second) else {
        panic!(rt; "taken twice")
    };
    assert!(rt; held.slot == 1 && held.holder == 1 && held.target == 1);
    let Err(held) = counters::try_take(&turns, &mut second, 0) else {
        panic!(rt; "taken twice")
    };
    assert!(rt; held.slot == 0 && held.holder == 1 && held.target == 1);
    give_both(&turns, &mut first, above, below);
    let Ok((above, below)) = take_both(&turns, &mut second) else {
        panic!(rt; "held")
    };
    give_both(&turns, &mut second, above, below);
    let passes = vec![in rt.alloc(); first, second]?;
    let Ok(closed) = counters::close(turns, rt.alloc(), passes) else {
        panic!(rt; "no memory")
    };
    assert_eq!(rt; closed.calls, 0);
    Ok(())
}
