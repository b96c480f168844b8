// The seeds of a plan's nodes, which are read from files.
ghost use Rattle.std.specs.Prelude.{◌≡◌, ◌≤◌, ◌<◌, length, map, option_map, IfOk, IfSome, IfNone};
ghost use Rattle.rbg_nodes.specs.Node.{New, seed_len};
ghost use Rattle.rbg_nodes.specs.Views.{row_of, short_by};
ghost use Rattle.tree_core.specs.Solo.{AreLong};
ghost use Rattle.rbgtree.specs.Check.{HasOpenCause};
ghost use Rattle.rbgtree.specs.Seeds.{IsFront, IsSeedOf, AreSeeds, planned_file};
ghost use Rattle.rbgtree.specs.Trees.{IsShort};

use crate::check::NotOpened;
use crate::files::read_front;
use crate::status::Status;
use crate::world::World;
use std::alloc::Global;
use tree_config::{NodeKind, NodePlan, Origin, TreePlan};

// The bytes of a node's seed: as many bits of entropy as its strength, and half as many of nonce.
fn seed_len(node: &NodePlan) -> usize
    ensures len { result ≡ seed_len (row_of node.now) New }
    ensures some { 0 < result }
{
    let strength = usize::from(node.drbg.strength());
    strength / 8 + strength / 16
}

/// Reads a node's seed from the file of this name: as many bytes as an instantiation takes, or all where there are fewer.
pub fn read_seed<W: World>(
    alloc: Global,
    node: &NodePlan,
    name: &str,
    world: &mut W,
) -> Result<Vec<u8>, NotOpened>
    ensures seed { IfOk result (λ seed. IsFront (W.files world.old) name.now (seed_len (row_of node.now) New) seed.items) }
    ensures files { W.files world.new ≡ W.files world.old }
    ensures recordings { W.recordings world.new ≡ W.recordings world.old }
    ensures cause { HasOpenCause (W.faults world.old) (W.faults world.new) result }
{
    let Ok(mut seed) = vec![in alloc; 0u8; seed_len(node)] else {
        return Err(NotOpened::OutOfMemory);
    };
    let Ok(have) = read_front(world, name, &mut seed) else {
        return Err(NotOpened::Fault);
    };
    seed.truncate(have);
    Ok(seed)
}

// A node's seed from the file that its plan names; a node without a file has none.
fn seed_of<W: World>(alloc: Global, node: &NodePlan, world: &mut W) -> Result<Vec<u8>, NotOpened>
    ensures seed { IfOk result (λ seed. IsSeedOf (W.files world.old) (planned_file node.now) node.now seed.items) }
    ensures files { W.files world.new ≡ W.files world.old }
    ensures recordings { W.recordings world.new ≡ W.recordings world.old }
    ensures cause { HasOpenCause (W.faults world.old) (W.faults world.new) result }
{
    match &node.origin {
        Origin::SeedFile(name) => read_seed(alloc, node, name.as_str(), world),
        Origin::Source(_) => Ok(Vec::new(alloc)),
        Origin::Parent(_) => Ok(Vec::new(alloc)),
    }
}

/// The seed of each node of a plan, from the files that the plan names, in order.
pub fn read_seeds<W: World>(
    alloc: Global,
    plan: &TreePlan,
    world: &mut W,
) -> Result<Vec<Vec<u8>>, NotOpened>
    ensures seeds { IfOk result (λ seeds. AreSeeds (W.files world.old) planned_file plan.now.nodes (map (λ s. s.items) seeds.items)) }
    ensures files { W.files world.new ≡ W.files world.old }
    ensures recordings { W.recordings world.new ≡ W.recordings world.old }
    ensures cause { HasOpenCause (W.faults world.old) (W.faults world.new) result }
{
    let Ok(mut seeds) = Vec::with_capacity(alloc, usize::from(plan.nodes())) else {
        return Err(NotOpened::OutOfMemory);
    };
    for n in 0..plan.nodes() {
        match seed_of(alloc, plan.node(n), world) {
            Ok(seed) => seeds.push_reserved(seed),
            Err(why) => return Err(why),
        }
    }
    Ok(seeds)
}

// Whether a node's seed is too short, and how the program then ends.
fn short_at(n: u16, node: &NodePlan, have: usize) -> Option<Status>
    ensures { result ≡ option_map (λ s. Status.SeedShort n s.have s.need) (short_by node.now.kind (seed_len (row_of node.now) New) have) }
{
    let need = seed_len(node);
    if let NodeKind::Rbg1 = node.kind {
        if have < need {
            return Some(Status::SeedShort {
                node: n,
                have: have as u64,
                need: need as u64,
            });
        }
    }
    None
}

/// The least node whose seed is too short, as the status with which the program then ends.
pub fn first_short(plan: &TreePlan, seeds: &[Vec<u8>]) -> Option<Status>
    requires { length seeds.now ≡ length plan.now.nodes }
    ensures short { IfSome result (IsShort plan.now (map (λ s. s.items) seeds.now)) }
    ensures long { IfNone result (AreLong plan.now (map (λ s. s.items) seeds.now) (length plan.now.nodes)) }
{
    for n in 0..plan.nodes() {
        let short = short_at(n, plan.node(n), seeds[usize::from(n)].len());
        if short.is_some() {
            return short;
        }
    }
    None
}
