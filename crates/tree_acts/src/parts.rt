// The parts of a call.
ghost use Rattle.std.specs.Prelude.{◌≡◌};
ghost use Rattle.tree_rules.specs.Chain.{named, asks_pr, task_of};
ghost use Rattle.tree_rules.specs.Replies.{is_instantiate, is_reseed, is_start, seeds_or_gives, needs_life, asked_count, asked_strength};
ghost use Rattle.tree_acts.specs.Plain.{task_in};

use crate::step::Asked;
use tree_rules::Call;

/// The node, or for Start the source, that a call names.
pub fn named(call: Call) -> u16
    ensures { result ≡ named call }
{
    match call {
        Call::Instantiate { node, strength: _ } => node,
        Call::Generate {
            node,
            count: _,
            strength: _,
            pr: _,
        } => node,
        Call::Reseed { node, pr: _ } => node,
        Call::Uninstantiate { node } => node,
        Call::Start { source } => source,
        Call::Status { node } => node,
    }
}

/// Whether a call asks prediction resistance.
pub fn asks_pr(call: Call) -> bool
    ensures { result ≡ asks_pr call }
{
    match call {
        Call::Generate {
            node: _,
            count: _,
            strength: _,
            pr,
        } => pr,
        Call::Reseed { node: _, pr } => pr,
        _ => false,
    }
}

/// What a call asks of the node that it names.
pub fn asked(call: Call) -> Asked
    ensures { task_in result ≡ task_of call }
{
    match call {
        Call::Instantiate { .. } => Asked::Instantiate,
        Call::Generate {
            node: _,
            count,
            strength: _,
            pr: _,
        } => Asked::Give { len: count },
        Call::Reseed { .. } => Asked::Reseed,
        _ => Asked::Rest,
    }
}

/// Whether it is an Instantiate.
pub fn is_instantiate(call: Call) -> bool
    ensures { result ≡ is_instantiate call }
{
    matches!(call, Call::Instantiate { .. })
}

/// Whether it is a Reseed.
pub fn is_reseed(call: Call) -> bool
    ensures { result ≡ is_reseed call }
{
    matches!(call, Call::Reseed { .. })
}

/// Whether it is a Start.
pub fn is_start(call: Call) -> bool
    ensures { result ≡ is_start call }
{
    matches!(call, Call::Start { .. })
}

/// Whether it is an Instantiate, a Generate or a Reseed.
pub fn seeds_or_gives(call: Call) -> bool
    ensures { result ≡ seeds_or_gives call }
{
    match call {
        Call::Instantiate { .. } => true,
        Call::Generate { .. } => true,
        Call::Reseed { .. } => true,
        _ => false,
    }
}

/// Whether its node must be instantiated, or about to be: every call but Start and Status.
pub fn needs_life(call: Call) -> bool
    ensures { result ≡ needs_life call }
{
    match call {
        Call::Uninstantiate { .. } => true,
        _ => seeds_or_gives(call),
    }
}

/// The bytes that it asks.
pub fn asked_count(call: Call) -> u32
    ensures { result ≡ asked_count call }
{
    match call {
        Call::Generate {
            node: _,
            count,
            strength: _,
            pr: _,
        } => count,
        _ => 0,
    }
}

/// The strength that it asks, in bits.
pub fn asked_strength(call: Call) -> u16
    ensures { result ≡ asked_strength call }
{
    match call {
        Call::Instantiate { node: _, strength } => strength,
        Call::Generate {
            node: _,
            count: _,
            strength,
            pr: _,
        } => strength,
        _ => 0,
    }
}
