// The plan of a tree.
ghost use Rattle.std.specs.Prelude.{◌≡◌, ◌<◌, ◌≤◌, length, slice_get, Some, MatchResult, IfOk, Ok, Err};
ghost use Rattle.tree_config.specs.Graph.{HasDepth};
ghost use Rattle.tree_config.specs.Tree.{IsTree, parents, Plan, stock_tree};
ghost use Rattle.tree_config.specs.Planned.{IsPlanned, IsNode, IsSource};
ghost use Rattle.tree_config.specs.Rows.{FaultIs};

use crate::fault::PlanRefusal;
use crate::graph::tree;
use crate::plan::{NodeKind, NodePlan, Origin, SourcePlan};
use crate::plans::plans;
use crate::rows::{depth_limit, rows};
use rbg_bytes::{Kind, Name, OutOfMemory};
use std::alloc::Global;
use std::marker::Model;

/// The plan of a tree: 0 to 4 sources and 1 to 63 nodes, at most 8 deep. Contracts see it as the list of its sources and the
/// list of its nodes, and whether all nodes are opened at the start.
#[derive(Drop)]
pub struct TreePlan {
    opens_all: bool,
    sources: Vec<SourcePlan>,
    nodes: Vec<NodePlan>,
    depths: Vec<u8>,
}

impl Model for TreePlan {
    ghost use Rattle.std.specs.Prelude.{◌≤◌, length};
    ghost use Rattle.tree_config.specs.Tree.{Tree, IsTree, parents};
    ghost use Rattle.tree_config.specs.Planned.{IsPlanned};
    ghost use Rattle.tree_config.specs.Walks.{HaveDepths};

    ghost Value = { Tree };

    ghost view = { λ t. record { opens_all = t.opens_all; sources = t.sources.items; nodes = t.nodes.items } };

    ghost invariant = { λ t. IsPlanned 0 (record { opens_all = t.opens_all; sources = t.sources.items; nodes = t.nodes.items })
        × IsTree 8 t.nodes.items × HaveDepths 8 (parents t.nodes.items) t.depths.items };
}

impl TreePlan {
    /// The plan of a text, or its first fault. A text of more than 65,536 bytes is a fault.
    pub fn read(alloc: Global, text: &[u8]) -> Result<TreePlan, PlanRefusal>
        ensures plan { MatchResult result (λ tree. Plan text.now (Ok tree)) (FaultIs (λ fault. Plan text.now (Err fault))) }
        ensures range { IfOk result (IsPlanned 1) }
    {
        let rows = rows(alloc, text)?;
        let nodes = plans(alloc, rows.nodes, depth_limit(rows.version))?;
        let depths = tree(alloc, &nodes, depth_limit(rows.version))?;
        Ok(TreePlan {
            opens_all: rows.opens_all,
            sources: rows.sources,
            nodes,
            depths,
        })
    }

    /// The plan of one RBG1 node with HMAC_DRBG over SHA-256 and the longest interval. The name of its seed file is empty.
    #[tactic(auto, using(crate::proofs::Stock::alone))]
    pub fn stock(alloc: Global) -> Result<TreePlan, OutOfMemory>
        ensures { IfOk result (λ tree. tree ≡ stock_tree) }
    {
        let mut nodes = Vec::new(alloc);
        let node = NodePlan {
            kind: NodeKind::Rbg1,
            drbg: Kind::HmacSha256,
            interval: 281474976710656,
            origin: Origin::SeedFile(Name::of("")),
        };
        match nodes.push(node) {
            Ok(()) => {}
            Err(_) => return Err(OutOfMemory),
        }
        let mut depths = Vec::new(alloc);
        match depths.push(1) {
            Ok(()) => {}
            Err(_) => return Err(OutOfMemory),
        }
        Ok(TreePlan {
            opens_all: true,
            sources: Vec::new(alloc),
            nodes,
            depths,
        })
    }

    /// How many nodes there are. They make a tree, and each is in range.
    pub fn nodes(&self) -> u16
        ensures count { result ≡ length self.now.nodes }
        ensures few { (1 ≤ result) × (result ≤ 63) }
        ensures range { IsPlanned 0 self.now }
        ensures tree { IsTree 8 self.now.nodes }
    {
        self.nodes.len() as u16
    }

    /// How many sources there are.
    pub fn sources(&self) -> u8
        ensures count { result ≡ length self.now.sources }
        ensures few { result ≤ 4 }
    {
        self.sources.len() as u8
    }

    /// Node n.
    pub fn node(&self, n: u16) -> &NodePlan
        requires { n < length self.now.nodes }
        ensures value { slice_get self.now.nodes n ≡ Some result.now }
        ensures range { IsNode 0 (length self.now.sources) (length self.now.nodes) result.now }
    {
        &self.nodes[usize::from(n)]
    }

    /// Source n.
    pub fn source(&self, n: u8) -> &SourcePlan
        requires { n < length self.now.sources }
        ensures value { slice_get self.now.sources n ≡ Some result.now }
        ensures range { IsSource result.now }
    {
        &self.sources[usize::from(n)]
    }

    /// How deep node n stands, 1 to 8: 1 without a parent, else one deeper than its parent.
    pub fn depth(&self, n: u16) -> u8
        requires { n < length self.now.nodes }
        ensures value { HasDepth (parents self.now.nodes) n result }
        ensures range { (1 ≤ result) × (result ≤ 8) }
    {
        self.depths[usize::from(n)]
    }

    /// Whether all nodes are opened at the start.
    pub fn opens_all(&self) -> bool
        ensures { result ≡ self.now.opens_all }
    {
        self.opens_all
    }
}
