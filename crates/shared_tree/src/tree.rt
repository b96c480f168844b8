// The tree that several callers share.
ghost use Rattle.std.specs.Prelude.{◌≡◌, ◌<◌, ◌≤◌, ◌^◌, ℕ, List, take, length, IfOk, IfErr, IsOk};
ghost use Rattle.tree_rules.specs.Slots.{path};
ghost use Rattle.tree_rules.specs.Chain.{target};
ghost use Rattle.tree_acts.specs.Wiped.{IsWipedBehind};
ghost use Rattle.shared_tree.specs.Passes.{IsPassOf};
ghost use Rattle.shared_tree.specs.Answers.{GrowsAmong, IsAnswered, IsBusy, IsSame, TakesFor};

use crate::busy::Busy;
use crate::calls::climb;
use crate::machine::TreeMachine;
use crate::row::Row;
use crate::waits::climb_later;
use sample_source::Samples;
use std::marker::Model;
use std::sync::Wait;
use tree_config::TreePlan;
use tree_core::{Call, Reply};
use tree_rules::{
    free_calls_are_done, free_calls_are_not_refused, refusals_come_by_the_table,
    replies_have_causes, running_sources_are_tested,
};
use turn_table::{Pass, Turns};

/// A caller's pass of a shared tree. It may go to another thread.
pub type TreePass<S> = Pass<TreeMachine<S>>;

/// A tree of generators that up to 64 callers use at once, by reference. Contracts see its plan, the name of its table of turns, and the
/// number of callers.
#[derive(Drop)]
pub struct SharedTree<S: Samples> {
    pub(crate) plan: TreePlan,
    pub(crate) turns: Turns<TreeMachine<S>>,
}

impl<S: Samples> Model for SharedTree<S> {
    ghost use Rattle.std.specs.Prelude.{◌≡◌, ◌<◌};
    ghost use Rattle.tree_rules.specs.Slots.{slot_count};
    ghost use Rattle.shared_tree.specs.Passes.{SharedView};

    ghost Value = { SharedView };

    ghost view = { λ t. record { plan = t.plan; table = t.turns.table; callers = t.turns.callers } };

    ghost invariant = { λ t. (t.turns.table.slots ≡ slot_count t.plan) × (0 < t.turns.callers) };
}

impl<S: Samples> SharedTree<S> {
    /// Makes a call with its string, unless a step of it finds a turn that it needs held by another caller; it never waits. The reply's bytes
    /// are those at the front of `out`, which has 65,536 bytes or more; behind them each byte is what it was, or 0. A refusal before any sample
    /// is read is answered, and is an entry of the history as every other answer.
    ///
    /// After `Busy` no sample was read, the call is in no history, each turn that it took is free again with its value unchanged, and `out` is as
    /// it was. The slot lies on the path of the call's target, and on that of the target for which the other caller has the turn. It is a slot
    /// of the call's chain, so a call that needs its node alone is busy at that node alone. Each turn that a call takes is of a slot on the path
    /// of its target, and is taken for this target. So calls whose paths share no slot never make each other busy.
    pub fn try_call(
        &self,
        pass: &mut TreePass<S>,
        call: &Call,
        input: &[u8],
        out: &mut [u8],
    ) -> Result<Reply, Busy>
        requires pass { IsPassOf self.now pass.old }
        requires few { length pass.old.view.mine < 2 ^ 40 }
        requires room { 65536 ≤ length out.old }
        ensures pass { IsPassOf self.entry.now pass.new }
        ensures same { IsSame pass.old.view pass.new.view }
        ensures answered { IfOk result (λ r. IsAnswered self.entry.now.plan call.entry.now input.entry.now r (take r.len out.new) pass.old.view pass.new.view) }
        ensures taken { TakesFor self.entry.now.plan (target self.entry.now.plan call.entry.now) pass.old.view.taken pass.new.view.taken }
        ensures unmet { IfOk result (λ _. pass.new.view.met ≡ pass.old.view.met) }
        ensures within { IfOk result (λ r. r.len ≤ 65536) }
        ensures behind { IfOk result (λ r. IsWipedBehind r.len out.old out.new) }
        ensures busy { IfErr result (λ b. IsBusy self.entry.now.plan call.entry.now input.entry.now b pass.old.view pass.new.view) }
        ensures untouched { IfErr result (λ _. out.new ≡ out.old) }
        ensures complete { pass.new.view.met ≡ pass.old.view.met → IsOk result }
    {
        refusals_come_by_the_table();
        replies_have_causes();
        free_calls_are_not_refused();
        free_calls_are_done();
        running_sources_are_tested();
        let mut row = Row::empty();
        climb(&self.turns, pass, &self.plan, &mut row, call, input, out)
    }

    /// Makes a call with its string, and waits for each turn that it needs, while it keeps those that it has. Turns are taken from the named
    /// node towards its root, and each turn that it finds held is that of a slot on the path of the call's target. All else is as in
    /// [`SharedTree::try_call`].
    pub fn call<R: Wait>(
        &self,
        rt: &R,
        pass: &mut TreePass<S>,
        call: &Call,
        input: &[u8],
        out: &mut [u8],
    ) -> Reply
        requires pass { IsPassOf self.now pass.old }
        requires few { length pass.old.view.mine < 2 ^ 40 }
        requires room { 65536 ≤ length out.old }
        ensures pass { IsPassOf self.entry.now pass.new }
        ensures same { IsSame pass.old.view pass.new.view }
        ensures answered { IsAnswered self.entry.now.plan call.entry.now input.entry.now result (take result.len out.new) pass.old.view pass.new.view }
        ensures taken { TakesFor self.entry.now.plan (target self.entry.now.plan call.entry.now) pass.old.view.taken pass.new.view.taken }
        ensures waited { GrowsAmong (path self.entry.now.plan (target self.entry.now.plan call.entry.now)) pass.old.view.met pass.new.view.met }
        ensures within { result.len ≤ 65536 }
        ensures behind { IsWipedBehind result.len out.old out.new }
    {
        refusals_come_by_the_table();
        replies_have_causes();
        free_calls_are_not_refused();
        free_calls_are_done();
        running_sources_are_tested();
        let mut row = Row::empty();
        climb_later(
            rt,
            &self.turns,
            pass,
            &self.plan,
            &mut row,
            call,
            input,
            out,
        )
    }
}
