// The load generator.
ghost use Rattle.std.specs.Prelude.{◌≡◌, ◌<◌, ◌/◌, ◌%◌, ◌^◌};
ghost use Rattle.tree_load.specs.Load.{next_number, stated_call};

use tree_core::Call;

const FACTOR: u64 = 6_364_136_223_846_793_005;

const STEP: u64 = 1_442_695_040_888_963_407;

/// The calls that a seed states on a tree of so many nodes, from the one after the number `reached` on: Generates of 0 to 64 bytes,
/// without strength and without prediction resistance.
#[derive(Clone, Copy, Debug)]
pub struct StatedCalls {
    pub nodes: u16,
    pub reached: u64,
}

impl StatedCalls {
    /// All calls of a seed.
    pub fn of(nodes: u16, seed: u64) -> StatedCalls
        ensures { result ≡ record { nodes = nodes; reached = seed } }
    {
        StatedCalls {
            nodes,
            reached: seed,
        }
    }

    /// The next call. The tree has a node at least.
    pub fn next_call(&mut self) -> Call
        requires { 0 < self.old.nodes }
        ensures call { result ≡ stated_call self.old.nodes (next_number self.old.reached) }
        ensures reached { self.new.reached ≡ next_number self.old.reached }
        ensures nodes { self.new.nodes ≡ self.old.nodes }
    {
        let number = next_number(self.reached);
        self.reached = number;
        Call::Generate {
            node: node_of(number, self.nodes),
            count: count_of(number),
            strength: 0,
            pr: false,
        }
    }
}

// The number behind another one, modulo 2^64.
fn next_number(number: u64) -> u64
    ensures { result ≡ next_number number }
{
    number.wrapping_mul(FACTOR).wrapping_add(STEP)
}

// The node that a number chooses, by its bits from 33 on.
fn node_of(number: u64, nodes: u16) -> u16
    requires { 0 < nodes }
    ensures { result ≡ number / 2 ^ 33 % nodes }
{
    (number / (1 << 33) % u64::from(nodes)) as u16
}

// The bytes that it asks, by its bits from 20 on.
fn count_of(number: u64) -> u32
    ensures { result ≡ number / 2 ^ 20 % 65 }
{
    (number / (1 << 20) % 65) as u32
}
