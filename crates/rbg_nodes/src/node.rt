// The node with its calls.
ghost use Rattle.std.specs.Prelude.{◌≡◌, ◌≤◌, ◌<◌, ◌^◌, length, true, false, Ok, Err, IsSome, IfSome, IfOk, MatchOption};
ghost use Rattle.std.specs.Option.{is_some};
ghost use Rattle.rbg_nodes.specs.Node.{fresh_node, kept_seed, node_after, is_due, given_bytes, entropy_len, seed_len, New, Renew, Seeded, Gave, Cleared};
ghost use Rattle.rbg_nodes.specs.Views.{row_of, counts_of, too_short, IsNode};
ghost use Rattle.rbg_bytes.specs.Xor.{xor_bytes};

use drbg_any::Drbg;
use rbg_bytes::{Fixed, Kind, xor_bytes};
use std::marker::Model;
use tree_config::{NodeKind, NodePlan};

/// What is set of a node: its kind (SP 800-90C), its DRBG, and the most outputs between two seeds, 1 to 2^48.
#[derive(Clone, Copy, Debug, PartialEq, Eq)]
pub struct NodeRow {
    pub kind: NodeKind,
    pub drbg: Kind,
    pub interval: u64,
}

/// Whether a node is instantiated, its reseed counter, which is 0 where it isn't, and how often it was seeded and gave since it
/// was made.
#[derive(Clone, Copy, Debug, PartialEq, Eq)]
pub struct NodeCounts {
    pub live: bool,
    pub counter: u64,
    pub seeds: u64,
    pub gives: u64,
}

/// An RBG1's seed has fewer bytes than an instantiation takes.
#[derive(Clone, Copy, Debug, PartialEq, Eq)]
pub struct SeedShort {
    pub have: usize,
    pub need: usize,
}

/// A node of a tree. Contracts see what is set of it and its state: whether it is instantiated, Key, V and the reseed counter of
/// its DRBG, its counts, and the seed that an RBG1 keeps until it is used.
#[derive(Drop)]
pub struct Node {
    row: NodeRow,
    drbg: Option<Drbg>,
    seeds: u64,
    gives: u64,
    kept: Option<Fixed<48>>,
}

impl Model for Node {
    ghost use Rattle.std.specs.Prelude.{◌≤◌, ◌^◌};
    ghost use Rattle.rbg_nodes.specs.Views.{NodeView, is_there, working_in, counter_in, IsOfKind, IsSeed, IsUsed};

    ghost Value = { NodeView };

    ghost view = { λ n. record {
      row = n.row;
      state = record { live = is_there n.drbg; working = working_in n.drbg; counter = counter_in n.drbg; seeds = n.seeds; gives = n.gives; kept = n.kept };
    } };

    ghost invariant = { λ n. (1 ≤ n.row.interval) × (n.row.interval ≤ 2 ^ 48) × IsOfKind n.row n.drbg × IsSeed n.row n.kept × IsUsed (is_there n.drbg) n.kept };
}

impl NodeRow {
    // What is set of a node by its plan.
    fn of(plan: &NodePlan) -> NodeRow
        ensures { result ≡ row_of plan.now }
    {
        NodeRow {
            kind: plan.kind,
            drbg: plan.drbg,
            interval: plan.interval,
        }
    }

    // The bytes of entropy of a seeding: as many bits as the strength.
    fn entropy_len(&self) -> usize
        ensures len { result ≡ entropy_len self.now }
        ensures range { result ≤ 32 }
    {
        usize::from(self.drbg.strength()) / 8
    }

    // The bytes of an instantiation: the entropy, and a nonce of half as many bits as the strength.
    fn seed_len(&self) -> usize
        ensures len { result ≡ seed_len self.now New }
        ensures range { result ≤ 48 }
    {
        self.entropy_len() + usize::from(self.drbg.strength()) / 16
    }
}

impl Node {
    /// A node that is not instantiated. An RBG1 keeps the first bytes of the seed, 3/2 times its strength in bits, and is refused
    /// exactly where there are fewer; other kinds take no seed.
    pub fn fresh(plan: &NodePlan, seed: &[u8]) -> Result<Node, SeedShort>
        requires interval_low { 1 ≤ plan.now.interval }
        requires interval_high { plan.now.interval ≤ 2 ^ 48 }
        ensures value { MatchOption (too_short (row_of plan.now) seed.now)
            (result ≡ Ok (record { row = row_of plan.now; state = fresh_node (kept_seed (row_of plan.now) seed.now) })) (λ short. result ≡ Err short) }
        ensures node { IfOk result (λ node. IsNode node) }
    {
        let row = NodeRow::of(plan);
        let need = row.seed_len();
        let kept = match row.kind {
            NodeKind::Rbg1 => {
                if seed.len() < need {
                    return Err(SeedShort {
                        have: seed.len(),
                        need,
                    });
                }
                Some(Fixed::of(&seed[..need]))
            }
            _ => None,
        };
        Ok(Node {
            row,
            drbg: None,
            seeds: 0,
            gives: 0,
            kept,
        })
    }

    /// The node's counts.
    pub fn counts(&self) -> NodeCounts
        ensures counts { result ≡ counts_of self.now.state }
        ensures node { IsNode self.now }
    {
        NodeCounts {
            live: self.drbg.is_some(),
            counter: match &self.drbg {
                Some(drbg) => drbg.counter(),
                None => 0,
            },
            seeds: self.seeds,
            gives: self.gives,
        }
    }

    /// Whether the reseed counter is above the interval.
    pub fn due(&self) -> bool
        ensures due { result ≡ is_due self.now.row self.now.state }
        ensures node { IsNode self.now }
    {
        self.counts().counter > self.row.interval
    }

    /// Whether the node keeps a seed that was not used.
    pub fn has_seed(&self) -> bool
        ensures kept { result ≡ is_some self.now.state.kept }
        ensures node { IsNode self.now }
    {
        self.kept.is_some()
    }

    /// Instantiates the node's DRBG from drawn material, of which the first bytes are the entropy, as many bits as the strength,
    /// and the rest is the nonce, half as long, and a personalization string of at most 65,536 bytes (SP 800-90A Rev. 1, 9.1).
    pub fn seed(&mut self, material: &[u8], pers: &[u8])
        requires dead { self.old.state.live ≡ false }
        requires material { length material.now ≡ seed_len self.old.row New }
        requires pers { length pers.now ≤ 65536 }
        requires seeds { self.old.state.seeds < 2 ^ 62 }
        ensures state { self.new ≡ record self.old { state = node_after self.old.row self.old.state (Seeded New material.now pers.now) } }
        ensures node { IsNode self.new }
    {
        let (entropy, nonce) = material.split_at(self.row.entropy_len());
        self.drbg = Some(Drbg::instantiate(self.row.drbg, entropy, nonce, pers));
        self.seeds += 1;
        self.kept = None;
    }

    /// Instantiates the node's DRBG from the seed that it keeps, which is thereby used up.
    pub fn seed_own(&mut self, pers: &[u8])
        requires dead { self.old.state.live ≡ false }
        requires kept { IsSome self.old.state.kept }
        requires pers { length pers.now ≤ 65536 }
        requires seeds { self.old.state.seeds < 2 ^ 62 }
        ensures state { IfSome self.old.state.kept (λ seed.
            self.new ≡ record self.old { state = node_after self.old.row self.old.state (Seeded New seed pers.now) }) }
        ensures node { IsNode self.new }
    {
        let Some(seed) = self.kept.take() else {
            unreachable!();
        };
        self.seed(seed.as_slice(), pers);
    }

    /// Reseeds the node's DRBG with entropy and additional input, of at most 65,536 bytes each (SP 800-90A Rev. 1, 9.2).
    pub fn reseed(&mut self, entropy: &[u8], add: &[u8])
        requires live { self.old.state.live ≡ true }
        requires entropy { length entropy.now ≤ 65536 }
        requires add { length add.now ≤ 65536 }
        requires seeds { self.old.state.seeds < 2 ^ 62 }
        ensures state { self.new ≡ record self.old { state = node_after self.old.row self.old.state (Seeded Renew entropy.now add.now) } }
        ensures node { IsNode self.new }
    {
        let Some(drbg) = &mut self.drbg else {
            unreachable!();
        };
        drbg.reseed(entropy, add);
        self.seeds += 1;
    }

    /// Fills `out`, at most 65,536 bytes, by one generate of the node's DRBG with additional input of at most 65,536 bytes
    /// (SP 800-90A Rev. 1, 9.3). The node isn't due.
    pub fn give(&mut self, add: &[u8], out: &mut [u8])
        requires live { self.old.state.live ≡ true }
        requires due { is_due self.old.row self.old.state ≡ false }
        requires add { length add.now ≤ 65536 }
        requires out { length out.old ≤ 65536 }
        requires gives { self.old.state.gives < 2 ^ 62 }
        ensures bytes { out.new ≡ given_bytes self.old.row self.old.state add.now (length out.old) }
        ensures state { self.new ≡ record self.old { state = node_after self.old.row self.old.state (Gave add.now (length out.old) out.new) } }
        ensures node { IsNode self.new }
    {
        let Some(drbg) = &mut self.drbg else {
            unreachable!();
        };
        match drbg.generate(add, self.row.interval, out) {
            Ok(()) => {}
            Err(_) => unreachable!(),
        }
        self.gives += 1;
    }

    /// The same, with each byte xor one of `fresh`, which is as long as `out`.
    pub fn give_xor(&mut self, add: &[u8], fresh: &[u8], out: &mut [u8])
        requires live { self.old.state.live ≡ true }
        requires due { is_due self.old.row self.old.state ≡ false }
        requires add { length add.now ≤ 65536 }
        requires fresh { length fresh.now ≡ length out.old }
        requires out { length out.old ≤ 65536 }
        requires gives { self.old.state.gives < 2 ^ 62 }
        ensures bytes { out.new ≡ xor_bytes (given_bytes self.old.row self.old.state add.now (length out.old)) fresh.now }
        ensures state { self.new ≡ record self.old {
          state = node_after self.old.row self.old.state
              (Gave add.now (length out.old) (given_bytes self.old.row self.old.state add.now (length out.old)));
        } }
        ensures node { IsNode self.new }
    {
        self.give(add, out);
        xor_bytes(out, fresh);
    }

    /// Lets go of the node's DRBG. Its counts of seedings and generates stay.
    pub fn clear(&mut self)
        ensures state { self.new ≡ record self.old { state = node_after self.old.row self.old.state Cleared } }
        ensures node { IsNode self.new }
    {
        self.drbg = None;
    }
}
