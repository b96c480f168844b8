// The row of what a call holds: eight nodes and one source at most.
ghost use Rattle.std.specs.Prelude.{◌≡◌, ◌≢◌, ◌↔◌, ◌<◌, ◌+◌, ℕ, Option, Some, None, IsTrue, IsSome, IsNone};
ghost use Rattle.std.specs.Borrow.{sem};
ghost use Rattle.tree_acts.specs.Hold.{IsHeld};
ghost use Rattle.shared_tree.specs.LentPlace.{LendsPlace};
ghost use Rattle.shared_tree.specs.Machine.{slot_view};
ghost use Rattle.shared_tree.specs.One.{node_in, room_in};
ghost use Rattle.shared_tree.specs.Both.{in_both};
ghost use Rattle.shared_tree.specs.Sums.{room_both};
ghost use Rattle.shared_tree.specs.Rows.{source_in, with_source, nodes_of, sources_of, what_of, room_of, places_of, cost, HasRoom, IsAlone, IsAt, Others};

use crate::boxed::Boxed;
use crate::machine::SlotValue;
use crate::places::{Place, Places, Two};
use entropy_source::EntropySource;
use rbg_nodes::Node;
use sample_source::Samples;
use tree_core::Holdings;

// The place for a source, whatever it is.
#[derive(Drop)]
pub enum SourcePlace<E: Drop> {
    Empty,
    Holds { slot: u16, source: Boxed<E> },
}

impl<E: Drop> SourcePlace<E> {
    fn has(&self, slot: u16) -> bool
        ensures { IsTrue result ↔ IsSome (source_in self.now slot) }
    {
        match self {
            SourcePlace::Empty => false,
            SourcePlace::Holds {
                slot: own,
                source: _,
            } => *own == slot,
        }
    }

    fn source(&self, slot: u16) -> &E
        requires { IsSome (source_in self.now slot) }
        ensures { source_in self.now slot ≡ Some result.now }
    {
        match self {
            SourcePlace::Empty => unreachable!(),
            SourcePlace::Holds { slot: _, source } => source.get(),
        }
    }

    fn take(&mut self, slot: u16) -> Boxed<E>
        requires { IsSome (source_in self.old slot) }
        ensures there { source_in self.old slot ≡ Some result }
        ensures others { (k : ℕ) → k ≢ slot → source_in self.new k ≡ source_in self.old k }
    {
        match std::mem::replace(self, SourcePlace::Empty) {
            SourcePlace::Empty => unreachable!(),
            SourcePlace::Holds { slot: _, source } => source,
        }
    }

    fn source_mut(&mut self, slot: u16) -> &mut E
        requires { IsSome (source_in self.old slot) }
        ensures* after { sem 𝓛 (LendsPlace E.row self.entry result (λ w. with_source self.old slot w)) }
        ensures value { source_in self.old slot ≡ Some result.now }
    {
        match self {
            SourcePlace::Empty => unreachable!(),
            SourcePlace::Holds { slot: _, source } => source.get_mut(),
        }
    }
}

// What a call holds.
#[derive(Drop)]
pub struct Row<S: Samples> {
    nodes: Two<Two<Two<Place>>>,
    source: SourcePlace<EntropySource<S>>,
}

impl<S: Samples> Holdings<EntropySource<S>> for Row<S> {
    ghost use Rattle.shared_tree.specs.Rows.{what_of, with_node_of, with_source_of};
    ghost use Rattle.shared_tree.specs.RowLaws.{node_put, source_put};

    ghost what = { what_of };

    ghost with_node = { with_node_of };

    ghost with_source = { with_source_of };

    fn held(&self, slot: u16) -> bool {
        self.nodes.has(slot) || self.source.has(slot)
    }

    fn node(&self, slot: u16) -> &Node {
        self.nodes.node(slot)
    }

    fn node_mut(&mut self, slot: u16) -> &mut Node {
        self.nodes.node_mut(slot)
    }

    fn source(&self, slot: u16) -> &EntropySource<S> {
        self.source.source(slot)
    }

    fn source_mut(&mut self, slot: u16) -> &mut EntropySource<S> {
        self.source.source_mut(slot)
    }

    ghost puts_node = { node_put };

    ghost puts_source = { source_put };
}

fn two_empty() -> Two<Place>
    ensures free { (k : ℕ) → in_both node_in result k ≡ None }
    ensures room { room_both room_in result ≡ 2 }
{
    Two {
        one: Place::Empty,
        other: Place::Empty,
    }
}

fn four_empty() -> Two<Two<Place>>
    ensures free { (k : ℕ) → in_both (in_both node_in) result k ≡ None }
    ensures room { room_both (room_both room_in) result ≡ 4 }
{
    Two {
        one: two_empty(),
        other: two_empty(),
    }
}

impl<S: Samples> Row<S> {
    // Nothing is held.
    pub(crate) fn empty() -> Row<S>
        ensures nodes { (k : ℕ) → nodes_of result k ≡ None }
        ensures sources { (k : ℕ) → sources_of result k ≡ None }
        ensures room { room_of result ≡ 8 }
    {
        Row {
            nodes: Two {
                one: four_empty(),
                other: four_empty(),
            },
            source: SourcePlace::Empty,
        }
    }

    // Holds one more slot.
    pub(crate) fn put(&mut self, slot: u16, value: SlotValue<S>)
        requires room { HasRoom self.old value }
        requires free { (nodes_of self.old slot ≡ None) × (sources_of self.old slot ≡ None) }
        ensures there { IsAt (what_of self.new) slot (slot_view value) }
        ensures alone { IsAlone self.new slot value }
        ensures others { Others (what_of self.old) (what_of self.new) slot }
        ensures room { room_of self.new + cost value ≡ room_of self.old }
        ensures places { places_of self.new + 1 ≡ places_of self.old }
    {
        match value {
            SlotValue::Node(node) => self.nodes.put(slot, node),
            SlotValue::Source(source) => self.source = SourcePlace::Holds { slot, source },
        }
    }

    // Gives the value of a slot out.
    pub(crate) fn take(&mut self, slot: u16) -> SlotValue<S>
        requires { IsHeld (what_of self.old) slot }
        ensures there { IsAt (what_of self.old) slot (slot_view result) }
        ensures others { Others (what_of self.old) (what_of self.new) slot }
    {
        if self.nodes.has(slot) {
            return SlotValue::Node(self.nodes.take(slot));
        }
        SlotValue::Source(self.source.take(slot))
    }
}
