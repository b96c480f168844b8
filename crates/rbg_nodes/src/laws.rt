// Laws on acts in a row and on bytes: each is a function without a body, whose contract is the law. No program calls them; they tie
// the step from state to state to what is counted on all acts.
ghost use Rattle.std.specs.Prelude.{◌≡◌, ℕ, List, [], length, false, Option};
ghost use Rattle.rbg_bytes.specs.Xor.{xor_bytes};
ghost use Rattle.rbg_nodes.specs.Node.{NodeAct, NodeState, node_after_all, fresh_node, given_bytes};
ghost use Rattle.rbg_nodes.specs.Counted.{seedings_of, generates_of, live_after, counter_after, kept_after};
ghost use Rattle.rbg_nodes.specs.declared.node.NodeRow.{NodeRow};

/// The state of a node, counted on all its acts since it was made: its seedings and generates are the acts of that kind, it is
/// instantiated where the last of Seeded and Cleared is a seeding, the reseed counter is one more than the generates since the last
/// seeding and 0 where the node is not instantiated, and the seed is kept until the first seeding.
pub fn states_are_counted()
    ensures seeds { (row : NodeRow) (kept : Option (List ℕ)) (acts : List NodeAct) →
        (node_after_all row (fresh_node kept) acts).seeds ≡ seedings_of acts }
    ensures gives { (row : NodeRow) (kept : Option (List ℕ)) (acts : List NodeAct) →
        (node_after_all row (fresh_node kept) acts).gives ≡ generates_of acts }
    ensures live { (row : NodeRow) (kept : Option (List ℕ)) (acts : List NodeAct) →
        (node_after_all row (fresh_node kept) acts).live ≡ live_after false acts }
    ensures counter { (row : NodeRow) (kept : Option (List ℕ)) (acts : List NodeAct) →
        (node_after_all row (fresh_node kept) acts).counter ≡ counter_after 0 acts }
    ensures kept { (row : NodeRow) (kept : Option (List ℕ)) (acts : List NodeAct) →
        (node_after_all row (fresh_node kept) acts).kept ≡ kept_after kept acts }
{}

/// A generate gives as many bytes as it is asked for; asked for none it gives none, whatever they are mixed with.
pub fn generates_have_their_lengths()
    ensures len { (row : NodeRow) (s : NodeState) (add : List ℕ) (len : ℕ) → length (given_bytes row s add len) ≡ len }
    ensures none { (row : NodeRow) (s : NodeState) (add fresh : List ℕ) → xor_bytes (given_bytes row s add 0) fresh ≡ [] }
{}
