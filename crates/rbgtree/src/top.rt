// What each command does.
ghost use Rattle.std.specs.Prelude.{◌≡◌, ◌∷◌, [], List, ℕ, map, codes, string_bytes, Some, IfSome, IfNone, IfOk};
ghost use Rattle.tree_config.specs.Tree.{stock_tree};
ghost use Rattle.rbgtree.specs.Commands.{IsCommand, IsNoCommand, family_word};
ghost use Rattle.vector_text.specs.declared.case.Family.{Family};
ghost use Rattle.rbgtree.specs.Check.{HasChecked, HasCheckCause, HasOpenCause};
ghost use Rattle.rbgtree.specs.Complete.{IsComplete};
ghost use Rattle.rbgtree.specs.Run.{outside_of, Ran, RanSeed, RanPlan, HasStatusCause};
ghost use Rattle.rbgtree.specs.Seeds.{AreSeeds, planned_file};

use crate::check::{
    BLANK, MAX_SOURCES, NotOpened, first_refused, not_opened, open_all, print, try_all,
};
use crate::files::read_plan;
use crate::load::{Load, load_of, run_load};
use crate::replaying::run_replay;
use crate::seeds::{read_seed, read_seeds};
use crate::serve::serve;
use crate::status::Status;
use crate::world::World;
use rbg_bytes::{ByteSink, ByteSource};
use std::alloc::Global;
use tree_config::TreePlan;
use vector_text::Family;

/// A command, with the name of the file that it begins with.
enum Command<'a> {
    Seed(&'a str),
    Answer(&'a str),
    Check(&'a str),
    Load(&'a str, Load),
    Replay(Family, &'a str),
}

// The command that two words are.
fn file_command<'a>(command: &str, name: &'a str) -> Option<Command<'a>>
    ensures some { IfSome result (IsCommand (command.now ∷ name.now ∷ [])) }
    ensures none { IfNone result (IsNoCommand (command.now ∷ name.now ∷ [])) }
{
    match command {
        "seed" => Some(Command::Seed(name)),
        "answer" => Some(Command::Answer(name)),
        "check" => Some(Command::Check(name)),
        _ => None,
    }
}

// The family that a word names.
fn family_of(word: &str) -> Option<Family>
    ensures some { IfSome result (λ family. word.now ≡ family_word family) }
    ensures none { IfNone result ((family : Family) → word.now ≡ family_word family → ⊥) }
{
    match word {
        "hmac" => Some(Family::Hmac),
        "ctr" => Some(Family::Ctr),
        _ => None,
    }
}

// The replay that three words are.
fn replay_of<'a>(command: &'a str, family: &'a str, name: &'a str) -> Option<Command<'a>>
    ensures some { IfSome result (IsCommand (command.now ∷ family.now ∷ name.now ∷ [])) }
    ensures none { IfNone result (IsNoCommand (command.now ∷ family.now ∷ name.now ∷ [])) }
{
    if command != "replay" {
        return None;
    }
    match family_of(family) {
        Some(family) => Some(Command::Replay(family, name)),
        None => None,
    }
}

// The command that four words are.
fn load_command<'a>(command: &str, name: &'a str, count: &str, seed: &str) -> Option<Command<'a>>
    ensures some { IfSome result (IsCommand (command.now ∷ name.now ∷ count.now ∷ seed.now ∷ [])) }
    ensures none { IfNone result (IsNoCommand (command.now ∷ name.now ∷ count.now ∷ seed.now ∷ [])) }
{
    match command {
        "load" => match load_of(count, seed) {
            Some(load) => Some(Command::Load(name, load)),
            None => None,
        },
        _ => None,
    }
}

// The command that the words are.
fn command_of(words: &[String]) -> Option<Command<'_>>
    ensures some { IfSome result (IsCommand (map string_bytes words.now)) }
    ensures none { IfNone result (IsNoCommand (map string_bytes words.now)) }
{
    match words {
        [command, name] => file_command(command.as_str(), name.as_str()),
        [command, family, name] => { replay_of(command.as_str(), family.as_str(), name.as_str()) }
        [command, name, count, seed] => load_command(
            command.as_str(),
            name.as_str(),
            count.as_str(),
            seed.as_str(),
        ),
        _ => None,
    }
}

// The one seed of the stock plan, from the file of this name.
fn stock_seed<W: World>(
    alloc: Global,
    plan: &TreePlan,
    name: &str,
    world: &mut W,
) -> Result<Vec<Vec<u8>>, NotOpened>
    requires { plan.now ≡ stock_tree }
    ensures seeds { IfOk result (λ seeds. AreSeeds (W.files world.old) (λ _. Some name.now) plan.now.nodes (map (λ s. s.items) seeds.items)) }
    ensures files { W.files world.new ≡ W.files world.old }
    ensures recordings { W.recordings world.new ≡ W.recordings world.old }
    ensures cause { HasOpenCause (W.faults world.old) (W.faults world.new) result }
{
    let Ok(mut seeds) = Vec::with_capacity(alloc, 1) else {
        return Err(NotOpened::OutOfMemory);
    };
    match read_seed(alloc, plan.node(0), name, world) {
        Ok(seed) => seeds.push_reserved(seed),
        Err(why) => return Err(why),
    }
    Ok(seeds)
}

// Answers the frames of the input from the stock tree, whose seed is that of the file of this name.
fn run_seed<W: World, I: ByteSource, O: ByteSink>(
    alloc: Global,
    name: &str,
    world: &mut W,
    input: &mut I,
    output: &mut O,
) -> Status
    ensures ran { let at = outside_of W.files W.recordings W.faults I.left I.faults O.out O.faults in
        RanSeed W.Samples.told W.Samples.faults W.Samples.reads name.now (at world.old input.old output.old) (at world.new input.new output.new) result }
    ensures files { W.files world.new ≡ W.files world.old }
    ensures cause { let at = outside_of W.files W.recordings W.faults I.left I.faults O.out O.faults in
        HasStatusCause (at world.old input.old output.old) (at world.new input.new output.new) result }
{
    let Ok(plan) = TreePlan::stock(alloc) else {
        return Status::Memory;
    };
    match stock_seed(alloc, &plan, name, world) {
        Ok(seeds) => serve(alloc, plan, seeds, world, input, output),
        Err(why) => not_opened(why, world),
    }
}

// Answers the frames of the input from a tree of this plan, whose seeds are those of the files that it names.
fn run_plan<W: World, I: ByteSource, O: ByteSink>(
    alloc: Global,
    plan: TreePlan,
    world: &mut W,
    input: &mut I,
    output: &mut O,
) -> Status
    ensures ran { let at = outside_of W.files W.recordings W.faults I.left I.faults O.out O.faults in
        RanPlan W.Samples.told W.Samples.faults W.Samples.reads planned_file plan (at world.old input.old output.old) (at world.new input.new output.new) result }
    ensures files { W.files world.new ≡ W.files world.old }
    ensures cause { let at = outside_of W.files W.recordings W.faults I.left I.faults O.out O.faults in
        HasStatusCause (at world.old input.old output.old) (at world.new input.new output.new) result }
{
    match read_seeds(alloc, &plan, world) {
        Ok(seeds) => serve(alloc, plan, seeds, world, input, output),
        Err(why) => not_opened(why, world),
    }
}

// Starts each source of a plan once, and prints a line of each source and of each node.
fn check<W: World, O: ByteSink>(
    alloc: Global,
    plan: &TreePlan,
    world: &mut W,
    output: &mut O,
) -> Status
    ensures checked { HasChecked W.Samples.told W.Samples.faults W.Samples.reads plan.now (W.recordings world.old) (W.recordings world.new) (O.out output.old) (O.out output.new) result }
    ensures files { W.files world.new ≡ W.files world.old }
    ensures cause { HasCheckCause (W.faults world.old) (W.faults world.new) (O.faults output.old) (O.faults output.new) result }
{
    let opened = match open_all(alloc, world, plan) {
        Ok(opened) => opened,
        Err(why) => return not_opened(why, world),
    };
    let count = usize::from(plan.sources());
    let mut lines = [BLANK; MAX_SOURCES];
    try_all(plan, opened, &mut lines);
    let lines = &lines[..count];
    if print(plan, lines, output).is_err() {
        return Status::WriteFault {
            count: output.fault_count(),
        };
    }
    match first_refused(lines) {
        Some(source) => Status::SourceRefused { source },
        None => Status::Done,
    }
}

/// Does what the words say, and says how that ended.
///
/// - `seed FILE`: the frames of the input are answered to the output, at most 1,048,576 of them, from a tree of one node, an RBG1
///   with HMAC_DRBG over SHA-256, which the first 48 bytes of FILE instantiate (32 of entropy, 16 of nonce).
/// - `answer CONFIG`: they are answered from a tree of the configuration's plan, over the seed files and the samples that it names.
///   All seed files are read, and none of their seeds is too short, before the first samples are opened.
/// - `check CONFIG`: the samples of each source of the configuration are opened, in order, each source is started once, and a
///   line is printed of each source and of each node. Where samples could not be opened, those of the sources before were, and
///   nothing is printed. Nothing is read from the input.
/// - `load CONFIG N SEED`: N calls that SEED states, at most 10,000,000, are made one after another on a tree as that of `answer`, and a
///   line is printed of their number, of how many were Done and how many refused, and of the counts of each node and of each source.
///   Nothing is read from the input.
/// - `replay hmac FILE`, `replay ctr FILE`: the text of FILE is read, for the mechanisms of HMAC_DRBG or of CTR_DRBG, and its cases are
///   run; three lines are printed of each that differs, and then the totals. Nothing is read from the input.
///
/// Where memory is lacking, nothing was read from the input, and nothing was written.
pub fn run<W: World, I: ByteSource, O: ByteSink>(
    alloc: Global,
    words: &[String],
    world: &mut W,
    input: &mut I,
    output: &mut O,
) -> Status
    ensures ran { let at = outside_of W.files W.recordings W.faults I.left I.faults O.out O.faults in
        Ran W.Samples.told W.Samples.faults W.Samples.reads (map string_bytes words.now) (at world.old input.old output.old) (at world.new input.new output.new) result }
    ensures files { W.files world.new ≡ W.files world.old }
    ensures cause { let at = outside_of W.files W.recordings W.faults I.left I.faults O.out O.faults in
        HasStatusCause (at world.old input.old output.old) (at world.new input.new output.new) result }
    ensures complete { let at = outside_of W.files W.recordings W.faults I.left I.faults O.out O.faults in
        IsComplete W.Samples.told W.Samples.faults W.Samples.reads (map string_bytes words.now) (at world.old input.old output.old) (at world.new input.new output.new) result }
{
    match command_of(words) {
        Some(Command::Seed(name)) => run_seed(alloc, name, world, input, output),
        Some(Command::Answer(name)) => match read_plan(alloc, name, world) {
            Ok(plan) => run_plan(alloc, plan, world, input, output),
            Err(status) => status,
        },
        Some(Command::Check(name)) => match read_plan(alloc, name, world) {
            Ok(plan) => check(alloc, &plan, world, output),
            Err(status) => status,
        },
        Some(Command::Load(name, load)) => match read_plan(alloc, name, world) {
            Ok(plan) => run_load(alloc, plan, load, world, output),
            Err(status) => status,
        },
        Some(Command::Replay(family, name)) => run_replay(alloc, family, name, world, output),
        None => Status::Usage,
    }
}
