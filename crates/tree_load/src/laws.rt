// Laws on the counts of a tree after calls. Each is a function without a body of its own, whose contract is the law; no program calls them.
ghost use Rattle.std.specs.Prelude.{◌≡◌, ◌<◌, ◌≤◌, ◌^◌, ◌++◌, ℕ, List, [], length, flat_map, slice_get, Some, if◌then◌else◌};
ghost use Rattle.std.specs.List.{range_with_len};
ghost use Rattle.std.proofs.Math.ListN.{replicate};
ghost use Rattle.entropy_source.specs.Views.{SourceView};
ghost use Rattle.rbg_nodes.specs.Views.{NodeView, counts_of};
ghost use Rattle.rbg_nodes.specs.declared.node.NodeCounts.{NodeCounts};
ghost use Rattle.rbg_nodes.specs.Node.{entropy_len};
ghost use Rattle.tree_config.specs.Tree.{IsTree, Tree};
ghost use Rattle.tree_core.specs.declared.solo.SourceCounts.{SourceCounts};
ghost use Rattle.tree_rules.specs.History.{Entry, Opening};
ghost use Rattle.tree_rules.specs.Openings.{IsHistory, states_behind};
ghost use Rattle.tree_rules.specs.Slots.{node_row};
ghost use Rattle.tree_load.specs.Load.{stated_calls};
ghost use Rattle.tree_load.specs.Made.{AreMade};
ghost use Rattle.tree_load.specs.Tally.{SameLengths, all_asks, is_child, node_tally, reseeds_for, source_tally};
ghost use Rattle.tree_load.specs.Tallied.{AreDone, asked_by, asked_of, counts_at, source_counts_at, view_counts};
ghost use Rattle.tree_load.specs.Fits.{AllFit, SourceFits};

use sample_source::Samples;

/// In a tree, what is asked of a node is what its own calls ask, and for each reseed of each child, by all that is asked of that child, as
/// many bytes as the child's entropy has. So children are followed far enough.
pub fn asks_reach_all_nodes_below()
    ensures { (limit : ℕ) (p : Tree) → IsTree limit p.nodes → (counter : ℕ → ℕ) (own : ℕ → List ℕ) (n : ℕ) →
        all_asks p counter own n ≡ own n ++ flat_map (λ m. if is_child p n m
        then replicate (reseeds_for (node_row p m) (counter m) (all_asks p counter own m)) (entropy_len (node_row p m)) else [])
        (range_with_len 0 (length p.nodes)) }
{}

/// Behind every history, calls of any callers decide the counts after them, where each is a Generate without prediction resistance or a
/// Status and is Done: the counts of every node and every source are those that the plan, the counts before the calls and the lengths
/// that they ask of each node say.
pub fn calls_decide_counts()
    ensures nodes { (f : Opening) (o h es : List Entry) → IsHistory f o (h ++ es) → AreDone es → (n : ℕ) → n < length f.plan.nodes →
        counts_at (states_behind f o (h ++ es)) n ≡ node_tally f.plan (counts_at (states_behind f o h)) (asked_by es) n }
    ensures sources { (f : Opening) (o h es : List Entry) → IsHistory f o (h ++ es) → AreDone es → (j : ℕ) →
        source_counts_at f.plan (states_behind f o (h ++ es)) j
        ≡ source_tally f.plan (counts_at (states_behind f o h)) (asked_by es) j (source_counts_at f.plan (states_behind f o h) j) }
{}

/// The order of the calls does not matter: where the counts before are the same, and of each node the same lengths are asked in whatever
/// order, so are the counts after. So it is of two runs over one plan, from two histories that left the same counts.
pub fn counts_know_no_order()
    ensures nodes { (p : Tree) (before from : ℕ → NodeCounts) (own others : ℕ → List ℕ) → ((n : ℕ) → n < length p.nodes → before n ≡ from n) →
        ((n : ℕ) → n < length p.nodes → SameLengths (own n) (others n)) → (n : ℕ) → n < length p.nodes →
        node_tally p before own n ≡ node_tally p from others n }
    ensures sources { (p : Tree) (before from : ℕ → NodeCounts) (own others : ℕ → List ℕ) → ((n : ℕ) → n < length p.nodes → before n ≡ from n) →
        ((n : ℕ) → n < length p.nodes → SameLengths (own n) (others n)) → (j : ℕ) (source : SourceCounts) →
        source_tally p before own j source ≡ source_tally p from others j source }
    ensures runs { (f g : Opening) (o q h i es fs : List Entry) → IsHistory f o (h ++ es) → IsHistory g q (i ++ fs) → f.plan ≡ g.plan →
        AreDone es → AreDone fs →
        ((n : ℕ) → n < length f.plan.nodes → counts_at (states_behind f o h) n ≡ counts_at (states_behind g q i) n) →
        ((n : ℕ) → n < length f.plan.nodes → SameLengths (asked_by es n) (asked_by fs n)) → (n : ℕ) → n < length f.plan.nodes →
        counts_at (states_behind f o (h ++ es)) n ≡ counts_at (states_behind g q (i ++ fs)) n }
    ensures run_sources { (f g : Opening) (o q h i es fs : List Entry) → IsHistory f o (h ++ es) → IsHistory g q (i ++ fs) → f.plan ≡ g.plan →
        AreDone es → AreDone fs →
        ((n : ℕ) → n < length f.plan.nodes → counts_at (states_behind f o h) n ≡ counts_at (states_behind g q i) n) →
        ((n : ℕ) → n < length f.plan.nodes → SameLengths (asked_by es n) (asked_by fs n)) → (j : ℕ) →
        source_counts_at f.plan (states_behind f o h) j ≡ source_counts_at g.plan (states_behind g q i) j →
        source_counts_at f.plan (states_behind f o (h ++ es)) j ≡ source_counts_at g.plan (states_behind g q (i ++ fs)) j }
{}

/// So it is of a load none of whose calls was refused: the counts of every node and every source after it are those that the plan, the
/// counts before it and the stated calls say.
pub fn loads_decide_counts<S: Samples>()
    ensures nodes { (f : Opening) (o h : List Entry) (samples : List S) (count seed calls done : ℕ)
        (nodes : List NodeView) (sources : List (SourceView S)) →
        AreMade S.told S.faults S.reads f o h samples (stated_calls count seed calls) done 0 nodes sources → (n : ℕ) (v : NodeView) → slice_get nodes n ≡ Some v →
        counts_of v.state ≡ node_tally f.plan (counts_at (states_behind f o h)) (asked_of (stated_calls count seed calls)) n }
    ensures sources { (f : Opening) (o h : List Entry) (samples : List S) (count seed calls done : ℕ)
        (nodes : List NodeView) (sources : List (SourceView S)) →
        AreMade S.told S.faults S.reads f o h samples (stated_calls count seed calls) done 0 nodes sources → (j : ℕ) (v : SourceView S) → slice_get sources j ≡ Some v →
        view_counts v ≡ source_tally f.plan (counts_at (states_behind f o h)) (asked_of (stated_calls count seed calls)) j
        (source_counts_at f.plan (states_behind f o h) j) }
{}

/// The numbers of every such run fit 64 bits, of nodes behind at most 2^46 entries in all, so that `node_tally` and `source_tally` compute
/// its counts.
pub fn runs_fit()
    ensures nodes { (f : Opening) (o h es : List Entry) → IsHistory f o (h ++ es) → AreDone es → length (h ++ es) ≤ 2 ^ 46 →
        AllFit f.plan (counts_at (states_behind f o h)) (asked_by es) }
    ensures sources { (f : Opening) (o h es : List Entry) → IsHistory f o (h ++ es) → AreDone es → (j : ℕ) →
        SourceFits f.plan (counts_at (states_behind f o h)) (asked_by es) j (source_counts_at f.plan (states_behind f o h) j) }
{}

/// After every history, at most 2^60 samples were taken from a source, and no more blocks were made of them than they are.
pub fn sources_have_a_limit()
    ensures taken { (f : Opening) (o h : List Entry) → IsHistory f o h → (j : ℕ) → (source_counts_at f.plan (states_behind f o h) j).taken ≤ 2 ^ 60 }
    ensures blocks { (f : Opening) (o h : List Entry) → IsHistory f o h → (j : ℕ) →
        (source_counts_at f.plan (states_behind f o h) j).blocks ≤ (source_counts_at f.plan (states_behind f o h) j).taken }
{}
