// What is next of a call.
use tree_acts::Step;
use tree_rules::Reply;

/// The next step of a call: to take the slot that it needs first of those that it doesn't hold, or, holding all that it needs, to be
/// refused before any sample is read, or to be worked.
#[derive(Clone, Copy, Debug, PartialEq, Eq)]
pub enum Next {
    Take(u16),
    Refuse(Reply),
    Ready,
}

// Where a walk along a chain ends: at a node that isn't held, or at the last one.
pub(crate) enum Reached {
    Missing(u16),
    End(Step),
}
