// The tree that one caller uses.
ghost use Rattle.std.specs.Prelude.{◌≡◌, ◌≤◌, ◌<◌, ◌+◌, ◌^◌, ℕ, List, map, length, take, slice_get, MatchResult, IfOk, IfSome};
ghost use Rattle.rbg_nodes.specs.Views.{counts_of};
ghost use Rattle.tree_rules.specs.History.{Entry, Opening};
ghost use Rattle.tree_rules.specs.Openings.{IsHistory};
ghost use Rattle.tree_rules.specs.Served.{Served};
ghost use Rattle.tree_acts.specs.Wiped.{IsWipedBehind};
ghost use Rattle.tree_core.specs.Whole.{AreAtMost, states_of};
ghost use Rattle.tree_core.specs.Made.{AnsweredBy, samples_in};
ghost use Rattle.tree_core.specs.Solo.{StandAfter, HaveHistory, OpensAs, OpensBy, IsCause, GoesOn};

use crate::all::All;
use crate::answer::answer;
use crate::fresh::{nodes_of, sources_of};
use crate::opening::open_all;
use crate::refusal::OpenRefusal;
use entropy_source::EntropySource;
use rbg_nodes::{Node, NodeCounts};
use sample_source::Samples;
use std::alloc::Global;
use std::marker::Model;
use tree_config::TreePlan;
use tree_rules::{
    Call, Reply, free_calls_are_done, free_calls_are_not_refused, refusals_come_by_the_table,
    replies_have_causes, running_sources_are_tested,
};

/// The samples that were taken from a source since it was opened, and the conditioned blocks made of them.
#[derive(Clone, Copy, Debug, PartialEq, Eq)]
pub struct SourceCounts {
    pub taken: u64,
    pub blocks: u64,
}

/// A tree in parts: its plan, and its nodes and sources in the order of their numbers.
#[derive(Drop)]
pub struct TreeParts<S: Samples> {
    pub plan: TreePlan,
    pub nodes: Vec<Node>,
    pub sources: Vec<EntropySource<S>>,
}

/// A tree of generators over sources of entropy that one caller uses. Contracts see its plan, its nodes and sources, and the number of
/// calls made.
#[derive(Drop)]
pub struct SoloTree<S: Samples> {
    plan: TreePlan,
    all: All<S>,
    calls: u64,
}

impl<S: Samples> Model for SoloTree<S> {
    ghost use Rattle.tree_core.specs.Whole.{AreOfPlan, AreAtMost, most_after};
    ghost use Rattle.tree_core.specs.Solo.{SoloView};

    ghost Value = { SoloView S };

    ghost view = { λ t. record { plan = t.plan; nodes = t.all.nodes.items; sources = t.all.sources.items; calls = t.calls } };

    ghost invariant = { λ t. AreOfPlan t.plan t.all.nodes.items t.all.sources.items × AreAtMost t.all.nodes.items (most_after t.calls) };
}

impl<S: Samples> SoloTree<S> {
    /// Opens a tree over its sources and seeds, one for each of its plan; the seeds of other nodes than RBG1s are not used. Where the plan
    /// opens all nodes, it starts all sources and then instantiates all nodes by depth; what these calls are answered is not kept. All
    /// memory is taken, and all seeds are looked at, before the first sample is read.
    pub fn open(
        alloc: Global,
        plan: TreePlan,
        sources: Vec<S>,
        seeds: Vec<Vec<u8>>,
    ) -> Result<SoloTree<S>, OpenRefusal>
        requires sources { length sources.items ≡ length plan.sources }
        requires seeds { length seeds.items ≡ length plan.nodes }
        ensures opened { MatchResult result
            (λ t. OpensAs S.told S.faults plan sources.items (map (λ s. s.items) seeds.items) t)
            (λ why. IsCause plan (map (λ s. s.items) seeds.items) why) }
        ensures made { IfOk result (λ t. OpensBy S.told S.faults S.reads plan sources.items (map (λ s. s.items) seeds.items) t) }
    {
        let _tree = plan.nodes();
        let nodes = match nodes_of(alloc, &plan, &seeds) {
            Ok(nodes) => nodes,
            Err(why) => return Err(why),
        };
        let sources = match sources_of(alloc, &plan, sources) {
            Ok(sources) => sources,
            Err(why) => return Err(why),
        };
        let all = match open_all(alloc, &plan, All { nodes, sources }) {
            Ok(all) => all,
            Err(why) => return Err(why),
        };
        Ok(SoloTree {
            plan,
            all,
            calls: 0,
        })
    }

    /// Makes a call, with its string, and answers it. The reply's bytes are those at the front of `out`, which has 65,536 bytes or more;
    /// behind them each byte is what it was, or 0.
    pub fn call(&mut self, call: &Call, input: &[u8], out: &mut [u8]) -> Reply
        requires room { 65536 ≤ length out.old }
        requires few { self.old.calls < 2 ^ 40 }
        ensures served { Served self.old.plan (states_of S.told S.faults self.old.nodes self.old.sources) (states_of S.told S.faults self.new.nodes self.new.sources)
            call.now input.now result (take result.len out.new) }
        ensures history { (f : Opening) (o h : List Entry) → IsHistory f o h → f.plan ≡ self.old.plan →
            StandAfter S.told S.faults f o h self.old.nodes self.old.sources →
            GoesOn S.told S.faults S.reads f o h (samples_in self.old.sources) call.now input.now result (take result.len out.new)
            self.new.nodes self.new.sources }
        ensures made { AnsweredBy S.told S.faults S.reads self.old.plan self.old.nodes self.new.nodes self.old.sources self.new.sources
            call.now input.now result (take result.len out.new) }
        ensures within { result.len ≤ 65536 }
        ensures plan { self.new.plan ≡ self.old.plan }
        ensures calls { self.new.calls ≡ self.old.calls + 1 }
        ensures behind { IsWipedBehind result.len out.old out.new }
    {
        refusals_come_by_the_table();
        replies_have_causes();
        free_calls_are_not_refused();
        free_calls_are_done();
        running_sources_are_tested();
        let reply = answer(&self.plan, &mut self.all, call, input, out);
        self.calls += 1;
        reply
    }

    /// How many calls were made, those of the opening not among them.
    pub fn calls(&self) -> u64
        ensures { result ≡ self.now.calls }
    {
        self.calls
    }

    /// The tree's plan.
    pub fn plan(&self) -> &TreePlan
        ensures { result.now ≡ self.now.plan }
    {
        &self.plan
    }

    /// The counts of a node.
    pub fn node_counts(&self, node: u16) -> NodeCounts
        requires { node < length self.now.plan.nodes }
        ensures { IfSome (slice_get self.now.nodes node) (λ v. result ≡ counts_of v.state) }
    {
        self.all.nodes[usize::from(node)].counts()
    }

    /// The counts of a source.
    pub fn source_counts(&self, source: u8) -> SourceCounts
        requires { source < length self.now.plan.sources }
        ensures { IfSome (slice_get self.now.sources source) (λ v. (result.taken ≡ v.taken) × (result.blocks ≡ v.blocks)) }
    {
        let source = &self.all.sources[usize::from(source)];
        SourceCounts {
            taken: source.taken(),
            blocks: source.blocks(),
        }
    }

    /// Takes the tree apart.
    pub fn into_parts(self) -> TreeParts<S>
        ensures plan { result.plan ≡ self.plan }
        ensures nodes { result.nodes.items ≡ self.nodes }
        ensures sources { result.sources.items ≡ self.sources }
    {
        TreeParts {
            plan: self.plan,
            nodes: self.all.nodes,
            sources: self.all.sources,
        }
    }

    /// Puts a tree together whose parts stand after a history of their plan. Each node was seeded at most 2^61 times, and gave at most as
    /// often.
    pub fn of_parts(parts: TreeParts<S>) -> SoloTree<S>
        requires history { HaveHistory S.told S.faults parts.plan parts.nodes.items parts.sources.items }
        requires few { AreAtMost parts.nodes.items (2 ^ 61) }
        ensures { result ≡ record { plan = parts.plan; nodes = parts.nodes.items; sources = parts.sources.items; calls = 0 } }
    {
        let TreeParts {
            plan,
            nodes,
            sources,
        } = parts;
        SoloTree {
            plan,
            all: All { nodes, sources },
            calls: 0,
        }
    }
}
