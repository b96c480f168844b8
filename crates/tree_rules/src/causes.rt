// Laws on replies: why each one comes. Each is a function without a body of its own, whose contract is the law; no program calls them.
ghost use Rattle.std.specs.Prelude.{◌≡◌, ◌≢◌, ◌↔◌, ℕ, List, [], length, Bool, true, false, IsSome, Some, None};
ghost use Rattle.tree_config.specs.Tree.{Tree};
ghost use Rattle.tree_config.specs.Planned.{IsPlanned};
ghost use Rattle.entropy_source.specs.Source.{source_after_all};
ghost use Rattle.rbg_nodes.specs.Node.{How, NodeState};
ghost use Rattle.tree_rules.specs.declared.call.Call.{Call};
ghost use Rattle.tree_rules.specs.declared.call.Call.TheVariants.{Generate, Status, Uninstantiate};
ghost use Rattle.tree_rules.specs.declared.reply.Reply.{Reply};
ghost use Rattle.tree_rules.specs.Slots.{source_slot};
ghost use Rattle.tree_rules.specs.History.{Entry, Opening, States, SlotState, NodeIs, node_in, has, after, at_slot, opened, source_in, states_after};
ghost use Rattle.tree_rules.specs.Chain.{Chain, SourceLink, named, need, slots_of_source, task_of, whole_chain};
ghost use Rattle.tree_rules.specs.Links.{Seeds};
ghost use Rattle.tree_rules.specs.Leaves.{HasLen, IsCleared, IsSeeded, LeavesSource};
ghost use Rattle.tree_rules.specs.Replies.{chain_of, is_running, refusal, seeds_or_gives};
ghost use Rattle.tree_rules.specs.Fits.{Fits, Legal};
ghost use Rattle.tree_rules.specs.Served.{Served};
ghost use Rattle.tree_rules.specs.Causes.{chain_in, refusal_in, IsOfTable, IsCaused, HasEnough, IsDone, IsDrawnDone, LacksCause, blocks_left, bytes_of};
ghost use Rattle.tree_rules.specs.Free.{EndAtRbg1, IsFree};

use entropy_source::{
    draws_end_by_their_reads, draws_give_whole_blocks, starts_end_by_their_reads,
};
use rbg_nodes::generates_have_their_lengths;

/// A reply of the table of refusals comes exactly where its row is the first that stands, and no other reply has one of the table's
/// codes, 1 to 11.
pub fn refusals_come_by_the_table()
    ensures exact { (p : Tree) (s : States) (e : Entry) (r : Reply) → Fits p s e →
        (refusal_in p s e ≡ Some r ↔ ((e.reply ≡ r) × IsOfTable r.code)) }
    ensures bytes { (p : Tree) (c : Call) (string : List ℕ) (ch : Chain) (r : Reply) → refusal p c string ch ≡ Some r → r.len ≡ 0 }
{}

/// A call that the table refuses is served with that reply, without an act and without bytes, between equal states.
pub fn refused_calls_are_served()
    ensures { (p : Tree) (s : States) (c : Call) (string : List ℕ) (r : Reply) →
        refusal p c string (chain_of p s c string) ≡ Some r → Served p s s c string r [] }
{}

/// A call that the table does not refuse is Done where it needs no source. Else its reply has its cause in what the source read:
/// SourceFault exactly where a read failed, HealthFailed exactly at a first alarm among the samples read, WantOfEntropy exactly where a
/// read gave none, and Done where there is none of these. The tests of a source that runs keep something.
pub fn replies_have_causes()
    ensures alone { (p : Tree) (s : States) (e : Entry) → Fits p s e → refusal_in p s e ≡ None →
        (chain_in p s e).source ≡ None → e.reply.code ≡ 0 }
    ensures source { (least : ℕ) (p : Tree) (s : States) (e : Entry) (t : SourceLink) → IsPlanned least p → Fits p s e →
        refusal_in p s e ≡ None → (chain_in p s e).source ≡ Some t →
        (is_running t.state.mode ≡ true → IsSome t.state.tail) →
        IsCaused e.call t (at_slot t.slot e.acts) (source_after_all t.row t.state (at_slot t.slot e.acts)) e.reply }
{
    draws_end_by_their_reads();
    starts_end_by_their_reads();
}

/// What each reply leaves. It says how many bytes it has, and a refusal has none. A refusal of the table leaves every slot as it is, and
/// every other refusal all but its source; so does Status. Uninstantiate, Instantiate and Reseed that are Done leave the node that they
/// name uninstantiated, or with a reseed counter of 1. The source is left as `LeavesSource` says.
pub fn replies_leave()
    ensures len { (p : Tree) (s : States) (e : Entry) → Fits p s e → e.reply.len ≡ length e.bytes }
    ensures given { (p : Tree) (s : States) (e : Entry) → Fits p s e → e.reply.code ≡ 0 → HasLen e.call e.reply.len }
    ensures bytes { (p : Tree) (s : States) (e : Entry) → Fits p s e → e.reply.code ≢ 0 → e.bytes ≡ [] }
    ensures refused { (p : Tree) (s : States) (e : Entry) (r : Reply) → Fits p s e →
        refusal_in p s e ≡ Some r → (k : ℕ) (x : SlotState) → after p k x e ≡ x }
    ensures others { (p : Tree) (s : States) (e : Entry) → Fits p s e → e.reply.code ≢ 0 → (k : ℕ) →
        has (slots_of_source (chain_in p s e).source) k ≡ false → (x : SlotState) → after p k x e ≡ x }
    ensures source { (p : Tree) (s : States) (e : Entry) (t : SourceLink) → Fits p s e →
        refusal_in p s e ≡ None → (chain_in p s e).source ≡ Some t →
        LeavesSource e.call t.state (source_after_all t.row t.state (at_slot t.slot e.acts)) e.reply }
    ensures seeded { (p : Tree) (s : States) (e : Entry) (how : How) → Fits p s e → task_of e.call ≡ Seeds how → e.reply.code ≡ 0 →
        (x : NodeState) → IsSeeded (node_in (after p (named e.call) (NodeIs x) e)) }
    ensures cleared { (p : Tree) (s : States) (e : Entry) (n : ℕ) → Fits p s e → e.call ≡ Uninstantiate n → e.reply.code ≡ 0 →
        (x : NodeState) → IsCleared (node_in (after p n (NodeIs x) e)) }
    ensures status { (p : Tree) (s : States) (e : Entry) (n : ℕ) → Fits p s e → e.call ≡ Status n → (k : ℕ) (x : SlotState) → after p k x e ≡ x }
{}

/// A call is refused by no row of the table exactly where it is free in a caller's words, by its whole chain.
pub fn free_calls_are_not_refused()
    ensures exact { (p : Tree) (s : States) (c : Call) (string : List ℕ) →
        (refusal p c string (chain_of p s c string) ≡ None ↔ IsFree p c string (whole_chain p s c)) }
    ensures whole { (p : Tree) (s : States) (c : Call) (string : List ℕ) → refusal p c string (chain_of p s c string) ≡ None →
        chain_of p s c string ≡ whole_chain p s c }
{}

/// In a plan in range, an RBG1 of a chain is its last node. So what is said of the last node as an RBG1 is said of every one of the chain.
pub fn rbg1s_end_their_chains()
    ensures { (least : ℕ) (p : Tree) (s : States) (c : Call) → IsPlanned least p → EndAtRbg1 (whole_chain p s c).links }
{}

/// A free call is Done where it needs no source. It is Done where no read for it gave none, no sample that it read is an alarm and the
/// source's fault count doesn't rise. And it is Done, with exactly the bytes that its chain and the samples say, where the source tells
/// its samples, as many are left as the call takes, none of them is an alarm and the fault count doesn't rise.
pub fn free_calls_are_done()
    ensures alone { (p : Tree) (s : States) (e : Entry) → Fits p s e → refusal_in p s e ≡ None →
        (chain_in p s e).source ≡ None → IsDone (bytes_of e.call e.string (chain_in p s e) []) e }
    ensures quiet { (least : ℕ) (p : Tree) (s : States) (e : Entry) (t : SourceLink) → IsPlanned least p → Fits p s e →
        refusal_in p s e ≡ None → (chain_in p s e).source ≡ Some t → (is_running t.state.mode ≡ true → IsSome t.state.tail) →
        LacksCause e.call t (at_slot t.slot e.acts) (source_after_all t.row t.state (at_slot t.slot e.acts)) → e.reply.code ≡ 0 }
    ensures told { (least : ℕ) (p : Tree) (s : States) (e : Entry) (t : SourceLink) (left : List ℕ) → IsPlanned least p → Fits p s e →
        refusal_in p s e ≡ None → (chain_in p s e).source ≡ Some t →
        (is_running t.state.mode ≡ true → IsSome t.state.tail) →
        HasEnough e.call t (need e.call (chain_in p s e)) left (source_after_all t.row t.state (at_slot t.slot e.acts)) →
        IsDone (bytes_of e.call e.string (chain_in p s e) (blocks_left e.call (chain_in p s e) left)) e }
{
    draws_end_by_their_reads();
    starts_end_by_their_reads();
}

/// A call that draws on its source and is Done has exactly the bytes that come of the blocks drawn.
pub fn done_calls_give_their_blocks()
    ensures { (p : Tree) (s : States) (e : Entry) (t : SourceLink) → Fits p s e → refusal_in p s e ≡ None →
        (chain_in p s e).source ≡ Some t → seeds_or_gives e.call ≡ true → e.reply.code ≡ 0 →
        IsDrawnDone t (chain_in p s e) e }
{}

/// A Generate that is Done gives as many bytes as it asks for.
pub fn generates_give_what_is_asked()
    ensures { (least : ℕ) (p : Tree) (s : States) (e : Entry) (n count strength : ℕ) (pr : Bool) → IsPlanned least p → Fits p s e →
        e.call ≡ Generate n count strength pr → e.reply.code ≡ 0 → e.reply.len ≡ count }
{
    generates_have_their_lengths();
    draws_give_whole_blocks();
}

/// After a legal history the tests of a source that runs keep something.
pub fn running_sources_are_tested()
    ensures { (f : Opening) (h : List Entry) (j : ℕ) → Legal f.plan (opened f) h →
        is_running (source_in (states_after f.plan (opened f) h (source_slot f.plan j))).mode ≡ true →
        IsSome (source_in (states_after f.plan (opened f) h (source_slot f.plan j))).tail }
{}
