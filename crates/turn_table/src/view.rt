//! What a pass knows. No value of these types is made: contracts alone see them.
use std::collections::LinkedList;

/// A turn that a pass has: the slot, the target for which it was taken, the slot's state, and whether the slot is away from its place just
/// now, which it is within a call alone.
pub struct Lease {
    pub slot: u64,
    pub target: u64,
    pub state: LinkedList<u64>,
    pub away: bool,
}

/// A take that found the turn held: the slot, the word that was found, the length of what the pass had seen then, and the slots whose turns it
/// had then.
pub struct Met {
    pub slot: u64,
    pub word: u64,
    pub at: u64,
    pub held: LinkedList<u64>,
}

/// A take that won: the slot, and the target for which its turn was taken.
pub struct Taken {
    pub slot: u64,
    pub target: u64,
}

/// A caller whose pass was taken in by another: its number and its entries.
pub struct Ended {
    pub number: u64,
    pub entries: LinkedList<LinkedList<u64>>,
}

/// What two passes had seen before one took in the other.
pub struct Before {
    pub one: LinkedList<LinkedList<u64>>,
    pub other: LinkedList<LinkedList<u64>>,
}

/// What a pass knows: the opening and the number of callers; its number (0 is none yet); the entries that it has seen, and its own ones; the
/// turns that it has; all turns that it ever took; its takes that found a turn held; how many passes may still be cut off from it; the callers
/// that ended in it, and what was seen before. `live` is false of a pass that was taken in and of the first one before the opening, which is
/// `fresh`.
pub struct View {
    pub live: bool,
    pub fresh: bool,
    pub opening: LinkedList<u64>,
    pub callers: u64,
    pub number: u64,
    pub seen: LinkedList<LinkedList<u64>>,
    pub mine: LinkedList<LinkedList<u64>>,
    pub leases: LinkedList<Lease>,
    pub taken: LinkedList<Taken>,
    pub met: LinkedList<Met>,
    pub left: u64,
    pub ended: LinkedList<Ended>,
    pub olds: LinkedList<Before>,
}
