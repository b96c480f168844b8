//! Counters that several callers add to: the smallest machine, as an example of how one is put on a table.
//!
//! A machine says what its openings, entries and states are (`specs/Counters.antt`: the opening is the empty list, an entry is the caller, the
//! counter and the amount, the state of a counter is its value), and proves the two laws. Then a call is three steps: [`take`] takes the turn
//! of the counter, [`settle`] commits the entry and puts the new value back. Who commits picks the entry by `Brand`: [`settle`] calls a
//! generic function whose type parameter is the test, and its proof says which test that is, by the arguments of the call
//! (`proofs/counters/settle/Invariants.antt`).
ghost use Rattle.std.specs.Prelude.{◌≡◌, ◌≢◌, ◌+◌, ◌<◌, ◌≤◌, ◌⊎◌, ◌^◌, [], All, IfErr, IfNone, IfOk, IfSome, length, vec_len, replicate};
ghost use Rattle.turn_table.specs.Calls.{MayCommit, Commits};
ghost use Rattle.turn_table.specs.Closes.{Closes};
ghost use Rattle.turn_table.specs.Counters.{counters, IsReady, HasOnly, Stands, Goes, Adds, Declines};

use crate::calls::Held;
use crate::closing::{CloseRefused, TableClosed};
use crate::machine::{Entered, Machine};
use crate::opening::OutOfMemory;
use crate::pass::Pass;
use crate::table::Turns;
use std::alloc::{AllocError, Global};
use std::marker::Brand;
use std::sync::Wait;

/// The machine of counters.
#[derive(Drop)]
pub struct Counters;

impl Machine for Counters {
    ghost use Rattle.turn_table.specs.Counters.{counters, reads_touched, leaves_others};

    type Value = u64;

    ghost meaning = { counters };

    ghost reads_touched = { reads_touched };

    ghost leaves_others = { leaves_others };
}

fn zeros(alloc: Global, count: u16) -> Result<Vec<u64>, AllocError>
    ensures { IfOk result (λ v. v.items ≡ replicate count 0) }
{
    vec![in alloc; 0; count as usize]
}

/// A table of so many counters at 0, and a pass for each of 1 to 64 callers.
pub fn open(
    alloc: Global,
    count: u16,
    callers: u8,
) -> Result<(Turns<Counters>, Vec<Pass<Counters>>), OutOfMemory>
    requires callers { (0 < callers) × (callers ≤ 64) }
    ensures table { IfOk result (λ r. (r.0.callers ≡ callers) × (r.0.table.slots ≡ count)) }
    ensures count { IfOk result (λ r. length r.1.items ≡ callers) }
    ensures passes { IfOk result (λ r. All (λ p. IsReady r.0.table callers p) r.1.items) }
{
    let Ok(values) = zeros(alloc, count) else {
        return Err(OutOfMemory);
    };
    Turns::open::<Brand>(alloc, Counters, values, callers)
}

/// Takes the turn of a counter, with its value, or says which other caller has it. It never waits.
pub fn try_take(turns: &Turns<Counters>, pass: &mut Pass<Counters>, slot: u16) -> Result<u64, Held>
    requires ready { IsReady turns.now.table turns.now.callers pass.old }
    requires slot { slot < turns.now.table.slots }
    ensures took { IfOk result (λ x. HasOnly turns.entry.now.table turns.entry.now.callers slot x pass.new × Goes pass.old.view pass.new.view) }
    ensures stood { IfOk result (λ x. Stands slot x pass.new.view) }
    ensures held { IfErr result (λ h. (h.slot ≡ slot) × (h.holder ≢ pass.old.view.number) × IsReady turns.entry.now.table turns.entry.now.callers pass.new × Goes pass.old.view pass.new.view) }
{
    turns.try_take(pass, slot, slot)
}

// Waits until the turn of a counter was seen free.
fn wait_for<R: Wait>(rt: &R, turns: &Turns<Counters>, pass: &mut Pass<Counters>, slot: u16)
    requires ready { IsReady turns.now.table turns.now.callers pass.old }
    requires slot { slot < turns.now.table.slots }
    ensures ready { IsReady turns.entry.now.table turns.entry.now.callers pass.new }
    ensures goes { Goes pass.old.view pass.new.view }
{
    turns.wait_for(rt, pass, slot);
}

/// Takes the turn of a counter, with its value, and waits while another caller has it.
#[tactic(auto, using(crate::proofs::Flow::goes_same, crate::proofs::Flow::goes_on))]
pub fn take<R: Wait>(rt: &R, turns: &Turns<Counters>, pass: &mut Pass<Counters>, slot: u16) -> u64
    requires ready { IsReady turns.now.table turns.now.callers pass.old }
    requires slot { slot < turns.now.table.slots }
    ensures turn { HasOnly turns.entry.now.table turns.entry.now.callers slot result pass.new }
    ensures stood { Stands slot result pass.new.view }
    ensures goes { Goes pass.old.view pass.new.view }
{
    for _ in rt.forever() {
        match try_take(turns, pass, slot) {
            Ok(value) => return value,
            Err(_) => wait_for(rt, turns, pass, slot),
        }
    }
    unreachable!()
}

// Commits the entry that E picks, by the counter and the amount.
fn enter<E: Entered>(turns: &Turns<Counters>, pass: &mut Pass<Counters>, slot: u16, amount: u32)
    requires own { pass.old.table ≡ turns.now.table }
    requires room { length pass.old.view.mine < 2 ^ 40 }
    requires entry { MayCommit counters E.is pass.old.view }
    ensures own { pass.new.table ≡ pass.old.table }
    ensures committed { Commits counters E.is pass.old.view pass.new.view }
{
    let _ = slot;
    let _ = amount;
    turns.commit::<E>(pass);
}

// What a counter comes to, where that is below 2^64 and the caller has not made 2^40 calls.
fn sum_of(value: u64, amount: u32, calls: u64) -> Option<u64>
    ensures some { IfSome result (λ x. (x ≡ value + amount) × (value + amount < 2 ^ 64) × (calls < 2 ^ 40)) }
    ensures none { IfNone result ((2 ^ 64 ≤ value + amount) ⊎ (2 ^ 40 ≤ calls)) }
{
    if calls >= 1 << 40 {
        return None;
    }
    value.checked_add(u64::from(amount))
}

/// Adds to a counter whose turn the pass has, and gives the turn back. The new value is returned; there is none where it would pass 2^64 - 1
/// or the pass has made 2^40 calls, and then nothing is added.
pub fn settle(
    turns: &Turns<Counters>,
    pass: &mut Pass<Counters>,
    slot: u16,
    value: u64,
    amount: u32,
) -> Option<u64>
    requires turn { HasOnly turns.now.table turns.now.callers slot value pass.old }
    ensures ready { IsReady turns.entry.now.table turns.entry.now.callers pass.new }
    ensures added { IfSome result (λ x. (x ≡ value + amount) × Adds slot amount x pass.old.view pass.new.view) }
    ensures full { IfNone result (((2 ^ 64 ≤ value + amount) ⊎ (2 ^ 40 ≤ length pass.old.view.mine)) × Goes pass.old.view pass.new.view) }
    ensures unseen { IfNone result (pass.new.view.seen ≡ pass.old.view.seen) }
{
    let Some(sum) = sum_of(value, amount, pass.calls()) else {
        turns.put_back(pass, slot, value);
        return None;
    };
    enter::<Brand>(turns, pass, slot, amount);
    turns.put_back(pass, slot, sum);
    Some(sum)
}

/// Adds to a counter, and waits while another caller has its turn. There is no new value where nothing was added, as `settle` says.
pub fn add<R: Wait>(
    rt: &R,
    turns: &Turns<Counters>,
    pass: &mut Pass<Counters>,
    slot: u16,
    amount: u32,
) -> Option<u64>
    requires ready { IsReady turns.now.table turns.now.callers pass.old }
    requires slot { slot < turns.now.table.slots }
    ensures ready { IsReady turns.entry.now.table turns.entry.now.callers pass.new }
    ensures added { IfSome result (λ x. Adds slot amount x pass.old.view pass.new.view) }
    ensures full { IfNone result (Declines slot amount pass.old.view pass.new.view) }
{
    let value = take(rt, turns, pass, slot);
    settle(turns, pass, slot, value, amount)
}

/// How many calls there were, all callers' together.
pub fn look(turns: &Turns<Counters>, pass: &mut Pass<Counters>) -> u64
    requires ready { IsReady turns.now.table turns.now.callers pass.old }
    ensures ready { IsReady turns.entry.now.table turns.entry.now.callers pass.new }
    ensures goes { Goes pass.old.view pass.new.view }
    ensures count { result ≡ length pass.new.view.seen }
{
    turns.look(pass)
}

/// Ends the table. It takes all its passes.
pub fn close(
    turns: Turns<Counters>,
    alloc: Global,
    passes: Vec<Pass<Counters>>,
) -> Result<TableClosed<Counters>, CloseRefused<Counters>>
    requires ready { All (λ p. IsReady turns.table turns.callers p) passes.items }
    requires all { length passes.items ≡ turns.callers }
    ensures count { IfOk result (λ r. length r.values.items ≡ turns.table.slots) }
    ensures closed { IfOk result (λ r. Closes counters [] passes.items r.calls r.values.items) }
    ensures refused { IfErr result (λ r. (r.turns ≡ turns) × (r.passes ≡ passes)) }
{
    turns.close(alloc, passes)
}
