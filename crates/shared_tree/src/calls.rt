// A call that takes the turns of its chain, or finds one held.
ghost use Rattle.std.specs.Prelude.{◌≡◌, ◌<◌, ◌≤◌, ◌^◌, ℕ, List, take, length, IfOk, IfErr};
ghost use Rattle.turn_table.specs.Calls.{MayCommit, Commits};
ghost use Rattle.turn_table.specs.Views.{freed};
ghost use Rattle.tree_rules.specs.Chain.{target};
ghost use Rattle.tree_acts.specs.Hold.{states_held};
ghost use Rattle.tree_acts.specs.Wiped.{IsWipedBehind};
ghost use Rattle.tree_core.specs.declared.step.Next.TheVariants as next_is;
ghost use Rattle.tree_core.specs.Names.{Names};
ghost use Rattle.shared_tree.specs.Machine.{tree_meaning};
ghost use Rattle.shared_tree.specs.Rows.{what_of, room_of, places_of, Others};
ghost use Rattle.shared_tree.specs.Answers.{TakesFor};
ghost use Rattle.shared_tree.specs.Carries.{Carrying, IsAbleToLeave, IsNext, Keeps, Makes, MaySettle, Meets, Reaches, Settles};

use crate::busy::Busy;
use crate::machine::TreeMachine;
use crate::row::Row;
use sample_source::Samples;
use std::marker::Brand;
use tree_acts::named;
use tree_config::TreePlan;
use tree_core::{Call, Next, Reply, next, work};
use turn_table::{Entered, Pass, Turns};

// Commits the entry that E picks, by the call, its answer, and what is held now.
fn enter<S: Samples, E: Entered>(
    turns: &Turns<TreeMachine<S>>,
    pass: &mut Pass<TreeMachine<S>>,
    row: &Row<S>,
    call: &Call,
    input: &[u8],
    reply: &Reply,
    out: &[u8],
)
    requires own { pass.old.table ≡ turns.now.table }
    requires room { length pass.old.view.mine < 2 ^ 40 }
    requires entry { MayCommit (tree_meaning S.told S.faults) E.is pass.old.view }
    ensures own { pass.new.table ≡ pass.old.table }
    ensures committed { Commits (tree_meaning S.told S.faults) E.is pass.old.view pass.new.view }
{
    let _ = row;
    let _ = call;
    let _ = input;
    let _ = reply;
    let _ = out;
    turns.commit::<E>(pass);
}

// Adds the entry of this call, reply and bytes.
fn settle<S: Samples>(
    turns: &Turns<TreeMachine<S>>,
    pass: &mut Pass<TreeMachine<S>>,
    row: &Row<S>,
    call: &Call,
    input: &[u8],
    reply: &Reply,
    out: &[u8],
)
    requires own { pass.old.table ≡ turns.now.table }
    requires room { length pass.old.view.mine < 2 ^ 40 }
    requires may { MaySettle S.told S.faults (what_of row.now) call.now input.now reply.now (take reply.now.len out.now) pass.old.view }
    ensures own { pass.new.table ≡ pass.old.table }
    ensures settled { Settles S.told S.faults (what_of row.entry.now) call.entry.now input.entry.now reply.entry.now (take reply.entry.now.len out.entry.now) pass.old.view pass.new.view }
{
    enter::<S, Brand>(turns, pass, row, call, input, reply, out);
}

// The slot that a call names.
pub(crate) fn target(plan: &TreePlan, call: &Call) -> u16
    requires { target plan.now call.now < 65536 }
    ensures { result ≡ target plan.now call.now }
{
    match *call {
        Call::Start { source } => plan.nodes() + source,
        _ => named(*call),
    }
}

// The call is refused before any sample is read, and entered so.
pub(crate) fn refuse<S: Samples>(
    turns: &Turns<TreeMachine<S>>,
    pass: &mut Pass<TreeMachine<S>>,
    plan: &TreePlan,
    row: &Row<S>,
    call: &Call,
    input: &[u8],
    reply: &Reply,
    out: &[u8],
)
    requires own { pass.old.table ≡ turns.now.table }
    requires room { length pass.old.view.mine < 2 ^ 40 }
    requires carrying { Carrying S.told S.faults plan.now (target plan.now call.now) (what_of row.now) (room_of row.now) turns.now.table.slots pass.old.view }
    requires refused { Names plan.now (what_of row.now) (states_held S.told S.faults (what_of row.now)) call.now input.now (next_is.Refuse reply.now) }
    ensures own { pass.new.table ≡ pass.old.table }
    ensures keeps { Keeps S.told S.faults (what_of row.entry.now) pass.old.view pass.new.view }
    ensures made { Makes S.told S.faults call.entry.now input.entry.now reply.entry.now (take reply.entry.now.len out.entry.now) pass.old.view pass.new.view }
    ensures met { pass.new.view.met ≡ pass.old.view.met }
    ensures taken { pass.new.view.taken ≡ pass.old.view.taken }
    ensures within { reply.entry.now.len ≤ 65536 }
    ensures behind { IsWipedBehind reply.entry.now.len out.entry.now out.entry.now }
{
    let _plan = plan;
    settle(turns, pass, row, call, input, reply, out);
}

// All that the call needs is held, and it is made.
pub(crate) fn perform<S: Samples>(
    turns: &Turns<TreeMachine<S>>,
    pass: &mut Pass<TreeMachine<S>>,
    plan: &TreePlan,
    row: &mut Row<S>,
    call: &Call,
    input: &[u8],
    out: &mut [u8],
) -> Reply
    requires own { pass.old.table ≡ turns.now.table }
    requires room { length pass.old.view.mine < 2 ^ 40 }
    requires buffer { 65536 ≤ length out.old }
    requires carrying { Carrying S.told S.faults plan.now (target plan.now call.now) (what_of row.old) (room_of row.old) turns.now.table.slots pass.old.view }
    requires ready { Names plan.now (what_of row.old) (states_held S.told S.faults (what_of row.old)) call.now input.now next_is.Ready }
    ensures own { pass.new.table ≡ pass.old.table }
    ensures keeps { Keeps S.told S.faults (what_of row.new) pass.old.view pass.new.view }
    ensures made { Makes S.told S.faults call.entry.now input.entry.now result (take result.len out.new) pass.old.view pass.new.view }
    ensures met { pass.new.view.met ≡ pass.old.view.met }
    ensures taken { pass.new.view.taken ≡ pass.old.view.taken }
    ensures within { result.len ≤ 65536 }
    ensures behind { IsWipedBehind result.len out.old out.new }
{
    let reply = work(plan, row, call, input, out);
    settle(turns, pass, row, call, input, &reply, out);
    reply
}

// Takes the turn of the next slot, and its value into the row.
fn reach<S: Samples>(
    turns: &Turns<TreeMachine<S>>,
    pass: &mut Pass<TreeMachine<S>>,
    plan: &TreePlan,
    row: &mut Row<S>,
    call: &Call,
    input: &[u8],
    slot: u16,
) -> Result<(), Busy>
    requires own { pass.old.table ≡ turns.now.table }
    requires carrying { Carrying S.told S.faults plan.now (target plan.now call.now) (what_of row.old) (room_of row.old) turns.now.table.slots pass.old.view }
    requires next { IsNext S.told S.faults plan.now (what_of row.old) call.now input.now slot }
    ensures own { pass.new.table ≡ pass.old.table }
    ensures carrying { IfOk result (λ _. Carrying S.told S.faults plan.entry.now (target plan.entry.now call.entry.now) (what_of row.new) (room_of row.new) turns.entry.now.table.slots pass.new.view) }
    ensures reaches { IfOk result (λ _. Reaches slot pass.old.view pass.new.view) }
    ensures met { IfOk result (λ _. pass.new.view.met ≡ pass.old.view.met) }
    ensures taken { TakesFor plan.entry.now (target plan.entry.now call.entry.now) pass.old.view.taken pass.new.view.taken }
    ensures places { IfOk result (λ _. places_of row.new < places_of row.old) }
    ensures busy { IfErr result (λ b. Meets plan.entry.now (target plan.entry.now call.entry.now) call.entry.now input.entry.now b pass.old.view pass.new.view) }
    ensures keeps { IfErr result (λ _. Keeps S.told S.faults (what_of row.new) pass.old.view pass.new.view) }
{
    let _ = input;
    let target = target(plan, call);
    match turns.try_take(pass, slot, target) {
        Ok(value) => {
            row.put(slot, value);
            Ok(())
        }
        Err(held) => Err(Busy {
            slot: held.slot,
            holder: held.holder,
            target: held.target,
        }),
    }
}

// Puts the value of a slot back, and gives its turn back.
pub(crate) fn leave<S: Samples>(
    turns: &Turns<TreeMachine<S>>,
    pass: &mut Pass<TreeMachine<S>>,
    row: &mut Row<S>,
    slot: u16,
)
    requires own { pass.old.table ≡ turns.now.table }
    requires held { IsAbleToLeave S.told S.faults (what_of row.old) slot pass.old.view }
    ensures own { pass.new.table ≡ pass.old.table }
    ensures freed { pass.new.view ≡ freed slot pass.old.view }
    ensures others { Others (what_of row.old) (what_of row.new) slot }
{
    let value = row.take(slot);
    turns.put_back(pass, slot, value);
}

// Takes the turns of the call's chain from here on, makes the call, and gives these turns back; or finds one held, and gives back what it took.
pub(crate) fn climb<S: Samples>(
    turns: &Turns<TreeMachine<S>>,
    pass: &mut Pass<TreeMachine<S>>,
    plan: &TreePlan,
    row: &mut Row<S>,
    call: &Call,
    input: &[u8],
    out: &mut [u8],
) -> Result<Reply, Busy>
    requires own { pass.old.table ≡ turns.now.table }
    requires room { length pass.old.view.mine < 2 ^ 40 }
    requires buffer { 65536 ≤ length out.old }
    requires carrying { Carrying S.told S.faults plan.now (target plan.now call.now) (what_of row.old) (room_of row.old) turns.now.table.slots pass.old.view }
    ensures own { pass.new.table ≡ pass.old.table }
    ensures keeps { Keeps S.told S.faults (what_of row.new) pass.old.view pass.new.view }
    ensures made { IfOk result (λ r. Makes S.told S.faults call.entry.now input.entry.now r (take r.len out.new) pass.old.view pass.new.view) }
    ensures met { IfOk result (λ _. pass.new.view.met ≡ pass.old.view.met) }
    ensures taken { TakesFor plan.entry.now (target plan.entry.now call.entry.now) pass.old.view.taken pass.new.view.taken }
    ensures within { IfOk result (λ r. r.len ≤ 65536) }
    ensures behind { IfOk result (λ r. IsWipedBehind r.len out.old out.new) }
    ensures busy { IfErr result (λ b. Meets plan.entry.now (target plan.entry.now call.entry.now) call.entry.now input.entry.now b pass.old.view pass.new.view) }
    ensures untouched { IfErr result (λ _. out.new ≡ out.old) }
{
    match next(plan, row, call, input) {
        Next::Take(slot) => match reach(turns, pass, plan, row, call, input, slot) {
            Err(busy) => Err(busy),
            Ok(()) => {
                let answer = climb(turns, pass, plan, row, call, input, out);
                leave(turns, pass, row, slot);
                answer
            }
        },
        Next::Refuse(reply) => {
            refuse(turns, pass, plan, row, call, input, &reply, out);
            Ok(reply)
        }
        Next::Ready => Ok(perform(turns, pass, plan, row, call, input, out)),
    }
}
