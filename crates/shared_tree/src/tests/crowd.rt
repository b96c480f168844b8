// Eight callers in threads of their own, two on each of four branches, and the one-thread tree over the same calls.
ghost use Rattle.std.specs.Prelude.{◌≡◌, ◌<◌, ◌≤◌, ℕ, All, length, slice_index_or};
ghost use Rattle.shared_tree.specs.Passes.{AreReady, IsPassOf};

use super::asking::{Said, ask, generate, heard};
use super::plans::{BRANCHES, ramp, read, seeds, shared};
use crate::{SharedTree, TreePass};
use sample_source::Recorded;
use std::alloc::Global;
use std::sync::{Mutex, Wait};
use std::test::Fail;
use std::thread;
use std::thread::Threads;
use tree_core::{Call, SoloTree};

// What a caller got: its outputs in order, and how many its node had given at each end of its life.
#[derive(Drop)]
struct Log {
    caller: u8,
    outputs: Vec<[u8; 32]>,
    ends: Vec<u64>,
}

// Behind an alarm a source is started until that is done, a few times at most.
fn restart<R: Wait>(rt: &R, tree: &SharedTree<Recorded>, pass: &mut TreePass<Recorded>)
    requires pass { IsPassOf tree.now pass.old }
    ensures pass { IsPassOf tree.entry.now pass.new }
    ensures opening { pass.new.view.opening ≡ pass.old.view.opening }
{
    for _ in 0..16 {
        if let Some(said) = ask(rt, tree, pass, Call::Start { source: 0 }, "") {
            if said.code == 0 {
                return;
            }
        }
    }
}

// Asks a node for bytes with a string, and keeps them. After an alarm the source is started.
fn output<R: Wait>(
    rt: &R,
    tree: &SharedTree<Recorded>,
    pass: &mut TreePass<Recorded>,
    node: u16,
    string: &str,
    log: &mut Log,
)
    requires pass { IsPassOf tree.now pass.old }
    ensures pass { IsPassOf tree.entry.now pass.new }
    ensures opening { pass.new.view.opening ≡ pass.old.view.opening }
{
    let Some(said) = ask(rt, tree, pass, generate(node, false), string) else {
        return;
    };
    if said.code == 13 {
        restart(rt, tree, pass);
    }
    if said.code == 0 && log.outputs.push(said.bytes).is_err() {
        log.caller = 0;
    }
}

fn gives(said: &Said) -> u64 {
    let mut gives = [0; 8];
    gives.copy_from_slice(&said.bytes[17..25]);
    u64::from_be_bytes(gives)
}

// Ends the life of node 1 and begins a new one, with a string. Between the two nothing is given, and its status says how often it gave.
fn renew<R: Wait>(
    rt: &R,
    tree: &SharedTree<Recorded>,
    pass: &mut TreePass<Recorded>,
    string: &str,
    log: &mut Log,
)
    requires pass { IsPassOf tree.now pass.old }
    ensures pass { IsPassOf tree.entry.now pass.new }
    ensures opening { pass.new.view.opening ≡ pass.old.view.opening }
{
    ask(rt, tree, pass, Call::Uninstantiate { node: 1 }, "");
    if let Some(said) = ask(rt, tree, pass, Call::Status { node: 1 }, "") {
        if log.ends.push(gives(&said)).is_err() {
            log.caller = 0;
        }
    }
    let again = Call::Instantiate {
        node: 1,
        strength: 0,
    };
    ask(rt, tree, pass, again, string);
}

// The string of each branch's calls: additional input and, where a life begins, the personalization string.
const STRINGS: [&str; 4] = [
    "",
    "of the second branch",
    "of the third branch",
    "of the fourth branch",
];

// A thousand calls or a few more: the first four callers each on a branch, and the next four on the same ones.
fn run<R: Wait>(rt: &R, tree: &SharedTree<Recorded>, pass: &mut TreePass<Recorded>, log: &mut Log)
    requires pass { IsPassOf tree.now pass.old }
    ensures pass { IsPassOf tree.entry.now pass.new }
    ensures opening { pass.new.view.opening ≡ pass.old.view.opening }
{
    let node = (u16::from(pass.caller()) + 3) % 4;
    let string = STRINGS[usize::from(node)];
    let renews = pass.caller() == 2;
    for i in 0..1000u32 {
        if renews && i % 100 == 50 {
            renew(rt, tree, pass, string, log);
        } else {
            output(rt, tree, pass, node, string, log);
        }
    }
}

// The same, and its log goes to the others.
fn run_one<R: Wait>(
    rt: &R,
    alloc: Global,
    tree: &SharedTree<Recorded>,
    logs: &Mutex<Vec<Log>>,
    pass: &mut TreePass<Recorded>,
)
    requires pass { IsPassOf tree.now pass.old }
    ensures pass { IsPassOf tree.entry.now pass.new }
    ensures opening { pass.new.view.opening ≡ pass.old.view.opening }
{
    let mut log = Log {
        caller: pass.caller(),
        outputs: Vec::new(alloc),
        ends: Vec::new(alloc),
    };
    run(rt, tree, pass, &mut log);
    let mut all = logs.lock(rt);
    match all.push(log) {
        Ok(()) => {}
        Err(_) => {}
    }
}

fn run_each<R: Threads + Wait + Sync>(
    rt: &R,
    alloc: Global,
    tree: &SharedTree<Recorded>,
    logs: &Mutex<Vec<Log>>,
    passes: &mut [TreePass<Recorded>],
)
    requires ready { All (λ p. IsPassOf tree.now p) passes.old }
    ensures ready { All (λ p. IsPassOf tree.entry.now p) passes.new }
    ensures same { (i : ℕ) (d : _) → i < length passes.old → (slice_index_or passes.new i d).view.opening ≡ (slice_index_or passes.old i d).view.opening }
    ensures count { length passes.new ≡ length passes.old }
{
    thread::for_each_mut(
        rt,
        passes,
        8,
        &|_, pass| run_one(rt, alloc, tree, logs, pass),
    );
}

#[tactic(auto, using(crate::proofs::Ready::ready_on, crate::proofs::Ready::passes_of))]
fn run_all<R: Threads + Wait + Sync>(
    rt: &R,
    alloc: Global,
    tree: &SharedTree<Recorded>,
    logs: &Mutex<Vec<Log>>,
    passes: &mut [TreePass<Recorded>],
)
    requires ready { AreReady tree.now passes.old }
    ensures ready { AreReady tree.entry.now passes.new }
    ensures count { length passes.new ≡ length passes.old }
{
    run_each(rt, alloc, tree, logs, passes);
}

// What the one-thread tree answers.
fn solo(tree: &mut SoloTree<Recorded>, call: Call, string: &str) -> Result<Said, Fail> {
    if tree.calls() >= 1 << 40 {
        return Err(Fail::from("too many calls"));
    }
    let mut out = [0u8; 65536];
    let reply = tree.call(&call, string.as_bytes(), &mut out);
    Ok(heard(reply, &out))
}

// The outputs of a node of the one-thread tree, one by one, with ends of its life behind so many of them each.
fn replay(
    alloc: Global,
    tree: &mut SoloTree<Recorded>,
    node: u16,
    string: &str,
    total: usize,
    ends: &[u64],
) -> Result<Vec<[u8; 32]>, Fail> {
    let mut outputs = Vec::new(alloc);
    let mut ended = 0;
    for _ in 0..10_000 {
        if ended < ends.len() && ends[ended] == outputs.len() as u64 {
            solo(tree, Call::Uninstantiate { node }, "")?;
            solo(tree, Call::Instantiate { node, strength: 0 }, string)?;
            ended += 1;
        } else if outputs.len() == total {
            return Ok(outputs);
        } else {
            let said = solo(tree, generate(node, false), string)?;
            match said.code {
                0 => outputs.push(said.bytes)?,
                13 => {
                    solo(tree, Call::Start { source: 0 }, "")?;
                }
                _ => return Err(Fail::from("refused")),
            }
        }
    }
    Err(Fail::from("too few outputs"))
}

// Whether the outputs are those of two callers, each in its order.
fn is_merged(outputs: &[[u8; 32]], one: &[[u8; 32]], other: &[[u8; 32]]) -> bool {
    let mut i = 0;
    let mut j = 0;
    for output in outputs {
        if i < one.len() && one[i].as_slice() == output.as_slice() {
            i += 1;
        } else if j < other.len() && other[j].as_slice() == output.as_slice() {
            j += 1;
        } else {
            return false;
        }
    }
    i == one.len() && j == other.len()
}

// The log of a caller.
fn log_of(logs: &[Log], caller: u8) -> Result<&Log, Fail> {
    for log in logs {
        if log.caller == caller {
            return Ok(log);
        }
    }
    Err(Fail::from("no log"))
}

fn sources(alloc: Global) -> Result<Vec<Recorded>, Fail> {
    let mut sources = Vec::new(alloc);
    for every in [8000, 0, 0, 0] {
        sources.push(Recorded::new(ramp(alloc, 131_072, every)?))?;
    }
    Ok(sources)
}

// How many outputs each branch gives at least and at most, and how often its node's life ends. The source of the first one alarms. Of the
// second one a node is asked that may be idle just then.
const OUTPUTS: [(usize, usize, usize); 4] = [
    (1_000, 1_999, 0),
    (990, 1_990, 10),
    (2_000, 2_000, 0),
    (2_000, 2_000, 0),
];

#[test]
fn eight_callers_get_what_one_gets(rt: HostRuntime) -> Result<(), Fail> {
    let alloc = rt.alloc();
    let plan = read(alloc, BRANCHES)?;
    let (tree, mut passes) = shared(alloc, plan, sources(alloc)?, 8)?;
    let logs = Mutex::new(Vec::new(alloc));
    run_all(&rt, alloc, &tree, &logs, passes.as_mut_slice());
    let mut calls = 0u64;
    for pass in &passes {
        calls = calls.saturating_add(pass.calls());
    }
    let Ok(closed) = tree.close(alloc, passes) else {
        return Err(Fail::from("no memory"));
    };
    assert_eq!(rt; closed.calls, calls);
    let plan = read(alloc, BRANCHES)?;
    let strings = seeds(alloc, &plan)?;
    let given = sources(alloc)?;
    if given.len() != usize::from(plan.sources()) || strings.len() != usize::from(plan.nodes()) {
        return Err(Fail::from("other sources"));
    }
    let Ok(mut one) = SoloTree::open(alloc, plan, given, strings) else {
        return Err(Fail::from("not opened"));
    };
    let logs = logs.into_inner();
    for branch in 0..4u8 {
        let first = log_of(&logs, branch + 1)?;
        let second = log_of(&logs, branch + 5)?;
        let total = first.outputs.len().saturating_add(second.outputs.len());
        let (least, most, ends) = OUTPUTS[usize::from(branch)];
        assert!(rt;
            least <= total && total <= most,
            "branch {branch} gave {total} outputs"
        );
        assert_eq!(rt; first.ends.len(), ends);
        let string = STRINGS[usize::from(branch)];
        let node = u16::from(branch);
        let outputs = replay(alloc, &mut one, node, string, total, &first.ends)?;
        assert!(rt;
            is_merged(&outputs, &first.outputs, &second.outputs),
            "branch {branch}"
        );
    }
    for node in 0..one.plan().nodes().min(closed.tree.plan().nodes()) {
        let got = closed.tree.node_counts(node);
        let want = one.node_counts(node);
        assert_eq!(rt;
            (got.live, got.counter, got.seeds, got.gives),
            (want.live, want.counter, want.seeds, want.gives)
        );
    }
    for source in 0..one.plan().sources().min(closed.tree.plan().sources()) {
        let got = closed.tree.source_counts(source);
        assert_eq!(rt; got, one.source_counts(source));
    }
    Ok(())
}
