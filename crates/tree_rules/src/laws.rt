// Laws on entries and histories: each is a function without a body, whose contract is the law. No program calls them; they tie the
// definitions to one another, and to what is built above them.
ghost use Rattle.std.specs.Prelude.{◌≡◌, ◌≢◌, ◌<◌, ◌↔◌, ◌==◌, ◌++◌, ℕ, List, [], length, slice_get, true, false, Some, None};
ghost use Rattle.health_tests.specs.Windows.{first_alarm};
ghost use Rattle.tree_config.specs.Graph.{HasDepth};
ghost use Rattle.tree_config.specs.Tree.{Tree, IsTree, parents};
ghost use Rattle.tree_config.specs.Planned.{IsPlanned};
ghost use Rattle.rbg_nodes.specs.Node.{NodeState};
ghost use Rattle.tree_rules.specs.declared.call.Call.{Call};
ghost use Rattle.tree_rules.specs.declared.reply.Reply.{Reply};
ghost use Rattle.tree_rules.specs.Slots.{source_slot, source_row, path};
ghost use Rattle.tree_rules.specs.History.{Entry, Opening, States, SlotState, NodeIs, has, after, at_slot, source_in, opened, states_after, state_of};
ghost use Rattle.tree_rules.specs.Chain.{Chain, slots_of, target};
ghost use Rattle.tree_rules.specs.Replies.{chain_of, refusal, is_running};
ghost use Rattle.tree_rules.specs.Fits.{Fits, Legal};
ghost use Rattle.tree_rules.specs.Right.{Right, AreRight, tested};
ghost use Rattle.tree_rules.specs.Sources.{Does};
ghost use Rattle.tree_rules.specs.Openings.{depth};
ghost use Rattle.tree_rules.specs.Apart.{Span, Lies, all_spans, Apart};
ghost use Rattle.tree_rules.specs.Quiet.{Quiet};

/// An entry reads the states of its chain alone: one that is right in some states is right in all that agree with them there.
pub fn entries_read_their_chain()
    ensures { (p : Tree) (s t : States) (e : Entry) → ((k : ℕ) → has e.chain k ≡ true → s k ≡ t k) → Fits p s e → Fits p t e }
{}

/// An entry leaves every slot that isn't in its chain as it is.
pub fn entries_leave_other_slots()
    ensures { (p : Tree) (s : States) (e : Entry) → Fits p s e → (k : ℕ) → has e.chain k ≡ false → (x : SlotState) → after p k x e ≡ x }
{}

/// An entry that the table of replies refuses has that reply, no act and no bytes, and the table never says Done. No refusal at
/// all changes a node, those that come while samples are read among them.
pub fn refusals_change_no_node()
    ensures nothing { (p : Tree) (s : States) (e : Entry) (r : Reply) → Fits p s e →
        refusal p e.call e.string (chain_of p s e.call e.string) ≡ Some r → (e.acts ≡ []) × (e.reply ≡ r) × (e.bytes ≡ []) }
    ensures code { (p : Tree) (c : Call) (string : List ℕ) (ch : Chain) (r : Reply) → refusal p c string ch ≡ Some r → r.code ≢ 0 }
    ensures nodes { (p : Tree) (s : States) (e : Entry) → Fits p s e → e.reply.code ≢ 0 → (k : ℕ) (x : NodeState) → after p k (NodeIs x) e ≡ NodeIs x }
{}

/// What an entry does to a source: nothing, one draw, with alarms told by what the source's tests keep, while the source runs where
/// samples are needed, or one start. Where the source refused, the entry isn't Done.
pub fn sources_draw_or_start()
    ensures { (p : Tree) (s : States) (j : ℕ) (e : Entry) → Fits p s e →
        Does (e.reply.code == 0) (source_row p j) (source_in (s (source_slot p j))) (at_slot (source_slot p j) e.acts) }
{}

/// The chain of a call lies on the path of the slot that the call names.
pub fn chains_lie_on_paths()
    ensures { (p : Tree) (s : States) (c : Call) (string : List ℕ) (k : ℕ) → has (slots_of (chain_of p s c string)) k ≡ true →
        has (path p (target p c)) k ≡ true }
{}

/// In a plan whose nodes make a tree, as every `TreePlan` is one, a node is as deep as its path has nodes.
pub fn depths_count_paths()
    ensures { (limit : ℕ) (p : Tree) (n d : ℕ) → IsTree limit p.nodes → n < length p.nodes → HasDepth (parents p.nodes) n d → depth p n ≡ d }
{}

/// No sample is used twice in a legal history: blocks, start-ups and blocks that were never full lie one behind the other among a
/// source's samples, and no place is in two of them.
pub fn no_sample_is_used_twice()
    ensures apart { (f : Opening) (es : List Entry) → Legal f.plan (opened f) es → Apart f.plan es }
    ensures places { (f : Opening) (es : List Entry) → Legal f.plan (opened f) es → (j a b place : ℕ) (x y : Span) →
        slice_get (all_spans (source_slot f.plan j) 0 es) a ≡ Some x → slice_get (all_spans (source_slot f.plan j) 0 es) b ≡ Some y →
        a < b → Lies place x → Lies place y → ⊥ }
{}

/// In a legal history over a plan in range, from an alarm of a source to its next start that is passed there is no block of it,
/// and no entry that is Done needed its samples, other than by a Start.
pub fn sources_are_quiet_after_alarms()
    ensures { (least : ℕ) (f : Opening) (es : List Entry) → IsPlanned least f.plan → Legal f.plan (opened f) es → Quiet f.plan (opened f) es }
{}

/// The states after a history, entry by entry, are the folds over each slot's own acts in it.
pub fn states_are_folds()
    ensures { (f : Opening) (h : List Entry) (k : ℕ) → state_of f h k ≡ states_after f.plan (opened f) h k }
{}

/// After a legal history over a plan in range, a source that runs has no alarm among the samples since its tests were fresh. So an alarm
/// that is found among later ones is the first of all.
pub fn running_sources_had_no_alarm()
    ensures { (least : ℕ) (f : Opening) (h : List Entry) (j : ℕ) → IsPlanned least f.plan → Legal f.plan (opened f) h →
        is_running (source_in (states_after f.plan (opened f) h (source_slot f.plan j))).mode ≡ true →
        first_alarm (source_row f.plan j).cutoffs (tested (source_slot f.plan j) h) ≡ None }
{}

/// After a legal history over a plan in range, an entry is right by all samples since the tests were fresh exactly where it is
/// right in the states of its chain, by the numbers that the tests keep.
pub fn right_is_fitting()
    ensures { (least : ℕ) (f : Opening) (h : List Entry) (e : Entry) → IsPlanned least f.plan → Legal f.plan (opened f) h →
        (Right f h e ↔ Fits f.plan (states_after f.plan (opened f) h) e) }
{}

/// The same of entries in a row, after a legal history or from the opening on.
pub fn histories_are_legal()
    ensures after { (least : ℕ) (f : Opening) (h es : List Entry) → IsPlanned least f.plan → Legal f.plan (opened f) h →
        (AreRight f h es ↔ Legal f.plan (states_after f.plan (opened f) h) es) }
    ensures whole { (least : ℕ) (f : Opening) (es : List Entry) → IsPlanned least f.plan → (AreRight f [] es ↔ Legal f.plan (opened f) es) }
{}

/// A history in two parts: the whole is legal exactly where the first part is, and the second one in the states that it leaves.
pub fn histories_have_parts()
    ensures legal { (p : Tree) (s : States) (xs ys : List Entry) →
        (Legal p s (xs ++ ys) ↔ (Legal p s xs × Legal p (states_after p s xs) ys)) }
    ensures states { (p : Tree) (s : States) (xs ys : List Entry) → states_after p s (xs ++ ys) ≡ states_after p (states_after p s xs) ys }
{}
