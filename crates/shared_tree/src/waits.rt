// A call that waits for the turns that it needs.
ghost use Rattle.std.specs.Prelude.{◌≡◌, ◌<◌, ◌≤◌, ◌^◌, ℕ, List, take, length};
ghost use Rattle.turn_table.specs.Views.{HasTurn};
ghost use Rattle.tree_rules.specs.Slots.{path};
ghost use Rattle.tree_rules.specs.Chain.{target};
ghost use Rattle.tree_acts.specs.Wiped.{IsWipedBehind};
ghost use Rattle.shared_tree.specs.Machine.{OnPath};
ghost use Rattle.shared_tree.specs.Rows.{what_of, room_of, places_of};
ghost use Rattle.shared_tree.specs.Answers.{GrowsAmong, TakesFor};
ghost use Rattle.shared_tree.specs.Carries.{Carrying, IsNext, Keeps, Makes, Reaches, TakesLater};

use crate::calls::{leave, perform, refuse, target};
use crate::machine::{SlotValue, TreeMachine};
use crate::row::Row;
use sample_source::Samples;
use std::sync::Wait;
use tree_config::TreePlan;
use tree_core::{Call, Next, Reply, next};
use turn_table::{Pass, Turns};

// Takes the turn of a slot, and waits while another caller has it.
#[tactic(auto, using(crate::proofs::Staying::stays_same, crate::proofs::Staying::stays_met, crate::proofs::Staying::stays_seen, crate::proofs::Staying::takes_later))]
fn take_later<S: Samples, R: Wait>(
    rt: &R,
    turns: &Turns<TreeMachine<S>>,
    pass: &mut Pass<TreeMachine<S>>,
    slot: u16,
    target: u16,
) -> SlotValue<S>
    requires own { pass.old.table ≡ turns.now.table }
    requires slots { (slot < turns.now.table.slots) × (target < turns.now.table.slots) }
    requires path { OnPath pass.old.view.opening slot target }
    requires free { HasTurn pass.old.view slot → ⊥ }
    ensures own { pass.new.table ≡ pass.old.table }
    ensures took { TakesLater S.told S.faults slot target result pass.old.view pass.new.view }
{
    for _ in rt.forever() {
        match turns.try_take(pass, slot, target) {
            Ok(value) => return value,
            Err(_) => turns.wait_for(rt, pass, slot),
        }
    }
    unreachable!()
}

// Takes the turn of the next slot, and its value into the row.
fn reach_later<S: Samples, R: Wait>(
    rt: &R,
    turns: &Turns<TreeMachine<S>>,
    pass: &mut Pass<TreeMachine<S>>,
    plan: &TreePlan,
    row: &mut Row<S>,
    call: &Call,
    input: &[u8],
    slot: u16,
)
    requires own { pass.old.table ≡ turns.now.table }
    requires carrying { Carrying S.told S.faults plan.now (target plan.now call.now) (what_of row.old) (room_of row.old) turns.now.table.slots pass.old.view }
    requires next { IsNext S.told S.faults plan.now (what_of row.old) call.now input.now slot }
    ensures own { pass.new.table ≡ pass.old.table }
    ensures carrying { Carrying S.told S.faults plan.entry.now (target plan.entry.now call.entry.now) (what_of row.new) (room_of row.new) turns.entry.now.table.slots pass.new.view }
    ensures reaches { Reaches slot pass.old.view pass.new.view }
    ensures met { GrowsAmong (path plan.entry.now (target plan.entry.now call.entry.now)) pass.old.view.met pass.new.view.met }
    ensures taken { TakesFor plan.entry.now (target plan.entry.now call.entry.now) pass.old.view.taken pass.new.view.taken }
    ensures places { places_of row.new < places_of row.old }
{
    let _ = input;
    let target = target(plan, call);
    let value = take_later(rt, turns, pass, slot, target);
    row.put(slot, value);
}

// Takes the turns of the call's chain from here on, makes the call, and gives these turns back.
pub(crate) fn climb_later<S: Samples, R: Wait>(
    rt: &R,
    turns: &Turns<TreeMachine<S>>,
    pass: &mut Pass<TreeMachine<S>>,
    plan: &TreePlan,
    row: &mut Row<S>,
    call: &Call,
    input: &[u8],
    out: &mut [u8],
) -> Reply
    requires own { pass.old.table ≡ turns.now.table }
    requires room { length pass.old.view.mine < 2 ^ 40 }
    requires buffer { 65536 ≤ length out.old }
    requires carrying { Carrying S.told S.faults plan.now (target plan.now call.now) (what_of row.old) (room_of row.old) turns.now.table.slots pass.old.view }
    ensures own { pass.new.table ≡ pass.old.table }
    ensures keeps { Keeps S.told S.faults (what_of row.new) pass.old.view pass.new.view }
    ensures made { Makes S.told S.faults call.entry.now input.entry.now result (take result.len out.new) pass.old.view pass.new.view }
    ensures met { GrowsAmong (path plan.entry.now (target plan.entry.now call.entry.now)) pass.old.view.met pass.new.view.met }
    ensures taken { TakesFor plan.entry.now (target plan.entry.now call.entry.now) pass.old.view.taken pass.new.view.taken }
    ensures within { result.len ≤ 65536 }
    ensures behind { IsWipedBehind result.len out.old out.new }
{
    match next(plan, row, call, input) {
        Next::Take(slot) => {
            reach_later(rt, turns, pass, plan, row, call, input, slot);
            let reply = climb_later(rt, turns, pass, plan, row, call, input, out);
            leave(turns, pass, row, slot);
            reply
        }
        Next::Refuse(reply) => {
            refuse(turns, pass, plan, row, call, input, &reply, out);
            reply
        }
        Next::Ready => perform(turns, pass, plan, row, call, input, out),
    }
}
