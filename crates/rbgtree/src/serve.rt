// A tree of a plan is opened, and one session is held on it.
ghost use Rattle.std.specs.Prelude.{◌≡◌, length, map, IfOk, IfErr};
ghost use Rattle.tree_core.specs.Solo.{AreLong};
ghost use Rattle.rbgtree.specs.Check.{HasOpenCause};
ghost use Rattle.rbgtree.specs.Trees.{OpensTree, HasNoTree};
ghost use Rattle.rbgtree.specs.Run.{outside_of, RanOver, HasStatusCause};

use crate::check::{NotOpened, not_opened, open_all};
use crate::seeds::first_short;
use crate::status::Status;
use crate::world::World;
use rbg_bytes::{ByteSink, ByteSource};
use session_core::{Session, session_solo};
use std::alloc::Global;
use tree_config::TreePlan;
use tree_core::{OpenRefusal, SoloTree};

/// The most frames of a session.
const MAX_FRAMES: u64 = 1_048_576;

/// A tree of the plan over its samples, which are opened in order, and over these seeds, none of them too short.
pub fn open_tree<W: World>(
    alloc: Global,
    plan: TreePlan,
    seeds: Vec<Vec<u8>>,
    world: &mut W,
) -> Result<SoloTree<W::Samples>, NotOpened>
    requires count { length seeds.items ≡ length plan.nodes }
    requires long { AreLong plan (map (λ s. s.items) seeds.items) (length plan.nodes) }
    ensures tree { IfOk result (OpensTree W.Samples.told W.Samples.faults W.Samples.reads plan (map (λ s. s.items) seeds.items) (W.recordings world.old) (W.recordings world.new)) }
    ensures none { IfErr result (HasNoTree W.Samples.told W.Samples.faults plan (W.recordings world.old) (W.recordings world.new)) }
    ensures files { W.files world.new ≡ W.files world.old }
    ensures cause { HasOpenCause (W.faults world.old) (W.faults world.new) result }
{
    let samples = match open_all(alloc, world, &plan) {
        Ok(samples) => samples,
        Err(why) => return Err(why),
    };
    match SoloTree::open(alloc, plan, samples, seeds) {
        Ok(tree) => Ok(tree),
        Err(OpenRefusal::OutOfMemory) => Err(NotOpened::OutOfMemory),
        Err(OpenRefusal::SeedShort { .. }) => unreachable!(),
    }
}

/// Opens a tree of the plan over these seeds, one for each node, and answers the frames of the input from it. All memory is taken
/// before the first byte of the input is read.
pub fn serve<W: World, I: ByteSource, O: ByteSink>(
    alloc: Global,
    plan: TreePlan,
    seeds: Vec<Vec<u8>>,
    world: &mut W,
    input: &mut I,
    output: &mut O,
) -> Status
    requires count { length seeds.items ≡ length plan.nodes }
    ensures ran { let at = outside_of W.files W.recordings W.faults I.left I.faults O.out O.faults in
        RanOver W.Samples.told W.Samples.faults W.Samples.reads plan (map (λ s. s.items) seeds.items) (at world.old input.old output.old) (at world.new input.new output.new) result }
    ensures files { W.files world.new ≡ W.files world.old }
    ensures cause { let at = outside_of W.files W.recordings W.faults I.left I.faults O.out O.faults in
        HasStatusCause (at world.old input.old output.old) (at world.new input.new output.new) result }
{
    if let Some(short) = first_short(&plan, &seeds) {
        return short;
    }
    let Ok(mut buffers) = Session::open(alloc, MAX_FRAMES) else {
        return Status::Memory;
    };
    match open_tree(alloc, plan, seeds, world) {
        Ok(mut tree) => Status::of(session_solo(&mut buffers, &mut tree, input, output)),
        Err(why) => not_opened(why, world),
    }
}
