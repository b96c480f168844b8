// Laws on plans in range, and on histories behind the opening calls. Each is a function without a body, whose contract is the law; no program calls them.
ghost use Rattle.std.specs.Prelude.{◌≡◌, ◌<◌, ◌≤◌, ◌^◌, ◌↔◌, ◌++◌, ◌∷◌, ℕ, List, [], length, true};
ghost use Rattle.tree_config.specs.Tree.{Tree, IsTree};
ghost use Rattle.tree_config.specs.Planned.{IsPlanned};
ghost use Rattle.rbg_nodes.specs.Node.{NodeState};
ghost use Rattle.tree_rules.specs.declared.call.Call.{Call};
ghost use Rattle.tree_rules.specs.declared.reply.Reply.{Reply};
ghost use Rattle.tree_rules.specs.Slots.{lineage, path, slot_count};
ghost use Rattle.tree_rules.specs.Chain.{slots_of, target};
ghost use Rattle.tree_rules.specs.Replies.{chain_of};
ghost use Rattle.tree_rules.specs.Counts.{HasCounts, IsRaised};
ghost use Rattle.tree_rules.specs.History.{Distinct, Entry, NodeIs, Opening, States, after, has, opened, states_after};
ghost use Rattle.tree_rules.specs.Fits.{Fits, Legal};
ghost use Rattle.tree_rules.specs.Right.{AreRight};
ghost use Rattle.tree_rules.specs.Openings.{IsOpening, IsHistory, states_behind};
ghost use Rattle.tree_rules.specs.Served.{Served, entry_of};
ghost use Rattle.tree_rules.specs.Apart.{Apart};
ghost use Rattle.tree_rules.specs.Quiet.{Quiet};

/// In a plan in range whose nodes make a tree, the chain of a call lies on the path of the slot that the call names, and each of its slots
/// is there.
pub fn chains_are_in_range()
    ensures { (limit least : ℕ) (p : Tree) (s : States) (c : Call) (string : List ℕ) (k : ℕ) → IsTree limit p.nodes → IsPlanned least p →
        has (slots_of (chain_of p s c string)) k ≡ true →
        (has (path p (target p c)) k ≡ true) × (k < slot_count p) × (target p c < slot_count p) }
{}

/// A path has at most eight nodes and one source, and there are at most 67 slots.
pub fn paths_are_short()
    ensures lineage { (limit : ℕ) (p : Tree) (n : ℕ) → IsTree limit p.nodes → n < length p.nodes → length (lineage p n) ≤ limit }
    ensures nodes { (p : Tree) (t : ℕ) → IsTree 8 p.nodes → (ks : List ℕ) → Distinct ks →
        ((k : ℕ) → has ks k ≡ true → (k < length p.nodes) × (has (path p t) k ≡ true)) → length ks ≤ 8 }
    ensures source { (limit least : ℕ) (p : Tree) (t j k : ℕ) → IsTree limit p.nodes → IsPlanned least p → length p.nodes ≤ j →
        length p.nodes ≤ k → has (path p t) j ≡ true → has (path p t) k ≡ true → j ≡ k }
    ensures slots { (least : ℕ) (p : Tree) → IsPlanned least p → slot_count p ≤ 67 }
{}

/// An entry, and so a call that was served, raises a node's seedings and generates by at most 256 each, so after at most 2^46 entries behind the opening calls they are at
/// most 2^61.
pub fn counts_are_small()
    ensures entry { (least : ℕ) (p : Tree) (s : States) (e : Entry) → IsPlanned least p → Fits p s e → (k : ℕ) (x : NodeState) →
        (y : NodeState) × (after p k (NodeIs x) e ≡ NodeIs y) × IsRaised 256 x y }
    ensures served { (least : ℕ) (p : Tree) (old new : States) (c : Call) (string : List ℕ) (reply : Reply) (bytes : List ℕ) → IsPlanned least p →
        Served p old new c string reply bytes → (k : ℕ) (x : NodeState) → old k ≡ NodeIs x →
        (y : NodeState) × (new k ≡ NodeIs y) × IsRaised 256 x y }
    ensures history { (f : Opening) (o h : List Entry) → IsHistory f o h → length h ≤ 2 ^ 46 → (k : ℕ) → HasCounts (2 ^ 61) (states_behind f o h k) }
{}

/// A legal history, with the opening calls at its front, is legal and right as a whole, uses no sample twice and is quiet after alarms.
pub fn histories_are_right_as_a_whole()
    ensures legal { (f : Opening) (o h : List Entry) → IsHistory f o h → Legal f.plan (opened f) (o ++ h) }
    ensures right { (f : Opening) (o h : List Entry) → IsHistory f o h → AreRight f [] (o ++ h) }
    ensures apart { (f : Opening) (o h : List Entry) → IsHistory f o h → Apart f.plan (o ++ h) }
    ensures quiet { (f : Opening) (o h : List Entry) → IsHistory f o h → Quiet f.plan (opened f) (o ++ h) }
{}

/// A legal history goes on with exactly the entries that are right in the states that it leaves.
pub fn histories_go_on()
    ensures { (f : Opening) (o h : List Entry) (e : Entry) → IsHistory f o h →
        (Fits f.plan (states_behind f o h) e ↔ IsHistory f o (h ++ e ∷ [])) }
{}

/// A call that was served from the states that legal entries leave goes on with them: its entry behind them is legal, and the states are
/// those after it. So it is of a history behind the opening calls.
pub fn served_calls_go_on()
    ensures legal { (limit least : ℕ) (p : Tree) (s : States) (es : List Entry) (old new : States) (c : Call) (string : List ℕ) (reply : Reply)
        (bytes : List ℕ) (caller : ℕ) → IsTree limit p.nodes → IsPlanned least p → Legal p s es →
        ((k : ℕ) → k < slot_count p → old k ≡ states_after p s es k) → (served : Served p old new c string reply bytes) →
        let e = entry_of p old c string reply bytes served.acts caller in
        Legal p s (es ++ e ∷ []) × ((k : ℕ) → k < slot_count p → new k ≡ states_after p s (es ++ e ∷ []) k) }
    ensures history { (f : Opening) (o h : List Entry) (old new : States) (c : Call) (string : List ℕ) (reply : Reply) (bytes : List ℕ) (caller : ℕ) →
        IsHistory f o h → ((k : ℕ) → k < slot_count f.plan → old k ≡ states_behind f o h k) →
        (served : Served f.plan old new c string reply bytes) →
        let e = entry_of f.plan old c string reply bytes served.acts caller in
        IsHistory f o (h ++ e ∷ []) × ((k : ℕ) → k < slot_count f.plan → new k ≡ states_behind f o (h ++ e ∷ []) k) }
{}
