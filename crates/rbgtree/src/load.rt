// `load`: calls that a seed states, on a tree, and the counts that they leave.
ghost use Rattle.std.specs.Prelude.{◌≡◌, ◌≤◌, ◌<◌, ◌+◌, ◌^◌, ◌∷◌, [], ℕ, List, length, map, codes, decimal, IfSome, IfNone};
ghost use Rattle.rbg_bytes.specs.Streams.{HasCause};
ghost use Rattle.tree_rules.specs.History.{Entry, Opening};
ghost use Rattle.tree_rules.specs.Openings.{IsHistory};
ghost use Rattle.tree_core.specs.Made.{samples_in};
ghost use Rattle.tree_core.specs.Solo.{StandAfter};
ghost use Rattle.rbgtree.specs.Check.{HasCheckCause};
ghost use Rattle.rbgtree.specs.Commands.{IsLoadCommand};
ghost use Rattle.rbgtree.specs.Load.{LoadedOver, LoadedPlan, PrintsLoad};

use crate::check::not_opened;
use crate::counts::print_load;
use crate::seeds::{first_short, read_seeds};
use crate::serve::open_tree;
use crate::status::Status;
use crate::world::World;
use rbg_bytes::{ByteSink, Failed, Line};
use sample_source::Samples;
use std::alloc::Global;
use tree_config::TreePlan;
use tree_core::SoloTree;
use tree_load::make_stated_calls;

/// The most calls of a load.
const MAX_CALLS: u64 = 10_000_000;

/// The most bytes of a call's reply.
const BUFFER_LEN: usize = 65_536;

/// A load: how many calls, and the seed that states them.
#[derive(Clone, Copy, Debug, PartialEq, Eq)]
pub struct Load {
    pub count: u64,
    pub seed: u64,
}

// The number that a word writes in decimal digits, without a sign and without leading zeros.
fn number_of(word: &str) -> Option<u64>
    ensures some { IfSome result (λ n. word.now ≡ decimal n) }
    ensures range { IfSome result (λ n. n < 2 ^ 64) }
    ensures none { IfNone result ((n : ℕ) → n < 2 ^ 64 → word.now ≡ decimal n → ⊥) }
{
    let Ok(number) = word.parse::<u64>() else {
        return None;
    };
    let mut digits = Line::new();
    digits.number(number);
    if digits.as_bytes() != word.as_bytes() {
        return None;
    }
    Some(number)
}

/// The load that two words state.
pub fn load_of(count: &str, seed: &str) -> Option<Load>
    ensures some { IfSome result (λ load. (name : List ℕ) → IsLoadCommand (codes "load" ∷ name ∷ count.now ∷ seed.now ∷ []) name load) }
    ensures none { IfNone result ((name : List ℕ) (load : Load) → IsLoadCommand (codes "load" ∷ name ∷ count.now ∷ seed.now ∷ []) name load → ⊥) }
{
    let count = number_of(count)?;
    let seed = number_of(seed)?;
    if count > MAX_CALLS {
        return None;
    }
    Some(Load { count, seed })
}

// Makes the calls of a load on a tree that was just opened, and prints what they leave.
fn make_load<S: Samples, O: ByteSink>(
    tree: &mut SoloTree<S>,
    load: Load,
    buffer: &mut [u8],
    output: &mut O,
) -> Result<(), Failed>
    requires room { 65536 ≤ length buffer.old }
    requires few { tree.old.calls + load.count ≤ 2 ^ 40 }
    ensures printed { (f : Opening) (o : List Entry) → IsHistory f o [] → f.plan ≡ tree.old.plan → StandAfter S.told S.faults f o [] tree.old.nodes tree.old.sources →
        PrintsLoad S.faults S.reads f o load (samples_in tree.old.sources) (O.out output.old) (O.out output.new) result }
    ensures cause { HasCause (O.faults output.old) (O.faults output.new) result }
{
    let made = make_stated_calls(tree, load.count, load.seed, buffer);
    print_load(load.count, &made, tree, output)
}

// Makes a load on a tree of the plan over these seeds, one for each node. All memory is taken before the samples are opened.
fn load_over<W: World, O: ByteSink>(
    alloc: Global,
    plan: TreePlan,
    seeds: Vec<Vec<u8>>,
    load: Load,
    world: &mut W,
    output: &mut O,
) -> Status
    requires count { length seeds.items ≡ length plan.nodes }
    requires few { load.count ≤ 10000000 }
    ensures loaded { LoadedOver W.Samples.told W.Samples.faults W.Samples.reads plan (map (λ s. s.items) seeds.items) load
        (W.recordings world.old) (W.recordings world.new) (O.out output.old) (O.out output.new) result }
    ensures files { W.files world.new ≡ W.files world.old }
    ensures cause { HasCheckCause (W.faults world.old) (W.faults world.new) (O.faults output.old) (O.faults output.new) result }
{
    if let Some(short) = first_short(&plan, &seeds) {
        return short;
    }
    let Ok(mut buffer) = vec![in alloc; 0u8; BUFFER_LEN] else {
        return Status::Memory;
    };
    let mut tree = match open_tree(alloc, plan, seeds, world) {
        Ok(tree) => tree,
        Err(why) => return not_opened(why, world),
    };
    match make_load(&mut tree, load, &mut buffer, output) {
        Ok(()) => Status::Done,
        Err(_) => Status::WriteFault {
            count: output.fault_count(),
        },
    }
}

/// Makes a load on a tree of the plan, whose seeds are those of the files that it names, and prints what it leaves.
pub fn run_load<W: World, O: ByteSink>(
    alloc: Global,
    plan: TreePlan,
    load: Load,
    world: &mut W,
    output: &mut O,
) -> Status
    requires { load.count ≤ 10000000 }
    ensures loaded { LoadedPlan W.Samples.told W.Samples.faults W.Samples.reads (W.files world.old) plan load
        (W.recordings world.old) (W.recordings world.new) (O.out output.old) (O.out output.new) result }
    ensures files { W.files world.new ≡ W.files world.old }
    ensures cause { HasCheckCause (W.faults world.old) (W.faults world.new) (O.faults output.old) (O.faults output.new) result }
{
    match read_seeds(alloc, &plan, world) {
        Ok(seeds) => load_over(alloc, plan, seeds, load, world, output),
        Err(why) => not_opened(why, world),
    }
}
