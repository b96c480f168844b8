// What `check` does with a plan: the samples of its sources are opened, each source is started once, and a line is printed of
// each source and of each node.
ghost use Rattle.std.specs.Prelude.{◌≡◌, ◌≤◌, length, take, map, IfOk, IfErr};
ghost use Rattle.rbg_bytes.specs.Streams.{HasCause, TakesAll};
ghost use Rattle.tree_config.specs.Planned.{IsSource};
ghost use Rattle.tree_rules.specs.Slots.{source_row_of};
ghost use Rattle.health_tests.specs.Numbers.{no_tail};
ghost use Rattle.entropy_source.specs.Views.{SourceView, opened_view, HasStarted};
ghost use Rattle.rbgtree.specs.Recordings.{recording_of};
ghost use Rattle.rbgtree.specs.Check.{sample_names, OpensAll, HasOpenCause, HasNotOpened, IsTried, AreTried, first_refused, printed, status_without};
ghost use Rattle.rbgtree.specs.Printed.{answer_of, node_lines};

use crate::printed::{NodeLine, SourceLine, print_node, print_sources};
use crate::status::Status;
use crate::world::World;
use conditioner::need;
use entropy_source::{EntropySource, SourceRefusal, SourceRow};
use rbg_bytes::{ByteSink, Failed};
use sample_source::Samples;
use std::alloc::Global;
use tree_acts::source_reply;
use tree_config::{SourcePlan, TreePlan};
use tree_core::Reply;

/// The most sources of a plan.
pub const MAX_SOURCES: usize = 4;

/// Done, without bytes.
const DONE: Reply = Reply {
    code: 0,
    a: 0,
    b: 0,
    len: 0,
};

/// A line of which nothing is filled in yet.
pub const BLANK: SourceLine = SourceLine {
    number: 0,
    rct: 0,
    window: 0,
    apt: 0,
    startup: 0,
    block: 0,
    taken: 0,
    answer: DONE,
};

/// Why a file was not read, or samples were not opened.
pub enum NotOpened {
    Fault,
    OutOfMemory,
}

/// How the program ends where a file could not be read or samples could not be opened.
pub fn not_opened<W: World>(why: NotOpened, world: &W) -> Status
    ensures { result ≡ status_without why (W.faults world.now) }
{
    match why {
        NotOpened::OutOfMemory => Status::Memory,
        NotOpened::Fault => Status::OpenFault {
            count: world.fault_count(),
        },
    }
}

// The answer to a start of the source with this number.
fn answer_of(number: u8, started: Result<(), SourceRefusal>) -> Reply
    ensures { result ≡ answer_of number started }
{
    match started {
        Ok(()) => DONE,
        Err(why) => source_reply(number, why),
    }
}

// What is set of a source by its plan.
fn row_of(plan: &SourcePlan) -> SourceRow
    ensures { result ≡ source_row_of plan.now }
{
    SourceRow {
        num: plan.num,
        den: plan.den,
        cutoffs: plan.cutoffs,
        startup: plan.startup,
        cond: plan.cond,
    }
}

// Starts a source of which no sample was taken.
fn start_fresh<S: Samples>(source: &mut EntropySource<S>) -> Result<(), SourceRefusal>
    requires fresh { source.old.taken ≡ 0 }
    requires startup { source.old.row.startup ≤ 65536 }
    ensures { HasStarted S.told S.faults S.reads result source.old source.new }
{
    source.start()
}

// Starts a source that was just opened once, and says what is printed of it.
fn try_source<S: Samples>(
    number: u8,
    plan: &SourcePlan,
    source: &mut EntropySource<S>,
) -> SourceLine
    requires range { IsSource plan.now }
    requires opened { source.old ≡ opened_view (source_row_of plan.now) no_tail source.old.samples }
    ensures { IsTried S.told S.faults S.reads number plan.now source.old.samples source.new result }
{
    let answer = answer_of(number, start_fresh(source));
    SourceLine {
        number,
        rct: plan.cutoffs.rct(),
        window: plan.cutoffs.window(),
        apt: plan.cutoffs.apt(),
        startup: plan.startup,
        block: need(plan.cond, plan.num, plan.den),
        taken: source.taken(),
        answer,
    }
}

// Opens a source over samples, and starts it once.
fn try_samples<S: Samples>(number: u8, plan: &SourcePlan, samples: S) -> SourceLine
    requires { IsSource plan.now }
    ensures { (after : SourceView S) × IsTried S.told S.faults S.reads number plan.now samples after result }
{
    let mut source = EntropySource::open(samples, row_of(plan));
    try_source(number, plan, &mut source)
}

/// Starts each source of the plan once, over these samples, and fills in the lines that are printed of them.
pub fn try_all<S: Samples>(plan: &TreePlan, opened: Vec<S>, lines: &mut [SourceLine; MAX_SOURCES])
    requires samples { length opened.items ≡ length plan.now.sources }
    requires few { length plan.now.sources ≤ 4 }
    ensures tried { AreTried S.told S.faults S.reads plan.now.sources opened.items (take (length plan.now.sources) lines.new) }
{
    let mut number = 0u8;
    for samples in opened {
        lines[usize::from(number)] = try_samples(number, plan.source(number), samples);
        number += 1;
    }
}

/// Opens the samples of each source of the plan, in order. All memory is taken before the first.
pub fn open_all<W: World>(
    alloc: Global,
    world: &mut W,
    plan: &TreePlan,
) -> Result<Vec<W::Samples>, NotOpened>
    ensures opened { IfOk result (λ opened. OpensAll (W.recordings world.old) (W.recordings world.new) (sample_names plan.now.sources)
        (map (recording_of W.Samples.told W.Samples.faults) opened.items)) }
    ensures count { IfOk result (λ opened. length opened.items ≡ length plan.now.sources) }
    ensures some { IfErr result (HasNotOpened W.Samples.told W.Samples.faults plan.now.sources (W.recordings world.old) (W.recordings world.new)) }
    ensures files { W.files world.new ≡ W.files world.old }
    ensures cause { HasOpenCause (W.faults world.old) (W.faults world.new) result }
{
    let Ok(mut opened) = Vec::with_capacity(alloc, usize::from(plan.sources())) else {
        return Err(NotOpened::OutOfMemory);
    };
    for number in 0..plan.sources() {
        let Ok(samples) = world.open_samples(plan.source(number).samples.as_str()) else {
            return Err(NotOpened::Fault);
        };
        opened.push_reserved(samples);
    }
    Ok(opened)
}

/// The number of the first source whose start was refused.
pub fn first_refused(lines: &[SourceLine]) -> Option<u8>
    ensures { result ≡ first_refused lines.now }
{
    for line in lines {
        if line.answer.code != 0 {
            return Some(line.number);
        }
    }
    None
}

// Prints a line of each node.
fn print_nodes<O: ByteSink>(plan: &TreePlan, output: &mut O) -> Result<(), Failed>
    ensures bytes { TakesAll (O.out output.old) (O.out output.new) result (node_lines plan.now) }
    ensures cause { HasCause (O.faults output.old) (O.faults output.new) result }
{
    for number in 0..plan.nodes() {
        let node = plan.node(number);
        let line = NodeLine {
            number,
            kind: node.kind,
            drbg: node.drbg,
            interval: node.interval,
            depth: plan.depth(number),
        };
        match print_node(&line, output) {
            Ok(()) => {}
            Err(failed) => return Err(failed),
        }
    }
    Ok(())
}

/// Prints a line of each source and of each node.
pub fn print<O: ByteSink>(
    plan: &TreePlan,
    lines: &[SourceLine],
    output: &mut O,
) -> Result<(), Failed>
    ensures bytes { TakesAll (O.out output.old) (O.out output.new) result (printed plan.now lines.now) }
    ensures cause { HasCause (O.faults output.old) (O.faults output.new) result }
{
    match print_sources(lines, output) {
        Ok(()) => print_nodes(plan, output),
        Err(failed) => Err(failed),
    }
}
