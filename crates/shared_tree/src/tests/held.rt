// A caller that is held in a read, and others that call meanwhile.
ghost use Rattle.std.specs.Prelude.{◌≡◌, ◌<◌, ℕ, All, length, slice_index_or};
ghost use Rattle.shared_tree.specs.Passes.{IsPassOf, AreReady};

use super::asking::{ask, generate, try_ask};
use super::gate::{Gate, Gated};
use super::plans::{PAIRS, ramp, read, shared};
use crate::{Busy, SharedTree, TreePass};
use sample_source::Recorded;
use std::sync::atomic::{AtomicU64, Ordering};
use std::sync::{Arc, Wait};
use std::test::Fail;
use std::thread;
use std::thread::Threads;
use tree_core::Call;

// How many calls were answered as they should be.
#[derive(Drop)]
struct Score {
    right: AtomicU64,
}

impl Score {
    fn add(&self, right: bool) {
        self.right.fetch_add(u64::from(right), Ordering::SeqCst);
    }
}

// What nodes 2, 3 and 1 give, by an independent implementation.
const OF_TWO: [u8; 32] = [
    0xfb, 0x91, 0x3f, 0xf3, 0x19, 0x7e, 0x9f, 0xab, 0x6c, 0x82, 0xed, 0xd5, 0x0a, 0xa6, 0x01, 0x61,
    0xea, 0xcb, 0xba, 0xbe, 0x7a, 0xc4, 0xbe, 0x46, 0x3e, 0x08, 0x31, 0xb0, 0x7b, 0xba, 0x3a, 0x25,
];

const OF_THREE: [u8; 32] = [
    0xa4, 0x5d, 0x69, 0x4a, 0x73, 0x65, 0x02, 0x67, 0x97, 0x3a, 0x65, 0x00, 0xd6, 0x2a, 0x53, 0x68,
    0x50, 0x02, 0x1d, 0x3f, 0x75, 0x9b, 0xb5, 0xee, 0xec, 0xbc, 0x04, 0xa5, 0xd9, 0x6b, 0xde, 0x19,
];

const OF_ONE: [u8; 32] = [
    0x95, 0xba, 0xf7, 0x64, 0x5d, 0x4d, 0x13, 0x6f, 0xc6, 0xd0, 0xb3, 0x9a, 0x31, 0x39, 0xe0, 0x68,
    0x51, 0xc6, 0x4e, 0x15, 0x1e, 0x64, 0x80, 0xee, 0xcd, 0x38, 0x71, 0x50, 0x6d, 0xc3, 0xd0, 0x89,
];

// Whether each node is live afterwards, its reseed counter, seeds and gives, and the samples taken and blocks of each source.
const NODES: [(bool, u64, u64, u64); 4] = [
    (true, 3, 2, 3),
    (true, 3, 1, 2),
    (true, 2, 2, 1),
    (true, 2, 1, 1),
];

const SOURCES: [(u64, u64); 2] = [(1144, 3), (1104, 2)];

// Makes a call that waits, is Done, and gives these bytes.
fn is_done<R: Wait>(
    rt: &R,
    tree: &SharedTree<Gated>,
    pass: &mut TreePass<Gated>,
    call: Call,
    want: &[u8; 32],
) -> bool
    requires pass { IsPassOf tree.now pass.old }
    ensures pass { IsPassOf tree.entry.now pass.new }
    ensures opening { pass.new.view.opening ≡ pass.old.view.opening }
{
    match ask(rt, tree, pass, call, "") {
        Some(said) => said.gives(want),
        None => false,
    }
}

// Makes a call that waits, and is Done.
fn is_answered<R: Wait>(
    rt: &R,
    tree: &SharedTree<Gated>,
    pass: &mut TreePass<Gated>,
    call: Call,
) -> bool
    requires pass { IsPassOf tree.now pass.old }
    ensures pass { IsPassOf tree.entry.now pass.new }
    ensures opening { pass.new.view.opening ≡ pass.old.view.opening }
{
    match ask(rt, tree, pass, call, "") {
        Some(said) => said.code == 0,
        None => false,
    }
}

// Makes a call that finds this slot held by the first caller for node 2.
fn is_busy(tree: &SharedTree<Gated>, pass: &mut TreePass<Gated>, call: Call, slot: u16) -> bool
    requires pass { IsPassOf tree.now pass.old }
    ensures pass { IsPassOf tree.entry.now pass.new }
    ensures opening { pass.new.view.opening ≡ pass.old.view.opening }
{
    let want = Busy {
        slot,
        holder: 1,
        target: 2,
    };
    match try_ask(tree, pass, call) {
        Some(Err(busy)) => busy == want,
        _ => false,
    }
}

// The same, but it doesn't wait.
fn is_done_at_once(
    tree: &SharedTree<Gated>,
    pass: &mut TreePass<Gated>,
    call: Call,
    want: &[u8; 32],
) -> bool
    requires pass { IsPassOf tree.now pass.old }
    ensures pass { IsPassOf tree.entry.now pass.new }
    ensures opening { pass.new.view.opening ≡ pass.old.view.opening }
{
    match try_ask(tree, pass, call) {
        Some(Ok(said)) => said.gives(want),
        _ => false,
    }
}

// The first caller asks node 2 for bytes with prediction resistance, and its source holds the read. Meanwhile the third one waits for the
// turn of node 0, and the second one calls.
fn play<R: Wait>(
    rt: &R,
    tree: &SharedTree<Gated>,
    gate: &Gate,
    score: &Score,
    pass: &mut TreePass<Gated>,
)
    requires pass { IsPassOf tree.now pass.old }
    ensures pass { IsPassOf tree.entry.now pass.new }
    ensures opening { pass.new.view.opening ≡ pass.old.view.opening }
{
    if pass.caller() == 1 {
        score.add(is_done(rt, tree, pass, generate(2, true), &OF_TWO));
        return;
    }
    score.add(gate.is_reached());
    if pass.caller() == 3 {
        score.add(is_answered(rt, tree, pass, generate(0, false)));
        return;
    }
    score.add(is_done(rt, tree, pass, generate(3, false), &OF_THREE));
    score.add(is_done_at_once(tree, pass, generate(1, false), &OF_ONE));
    score.add(is_busy(tree, pass, generate(2, false), 2));
    score.add(is_busy(tree, pass, generate(0, false), 0));
    score.add(is_busy(tree, pass, Call::Start { source: 0 }, 4));
    gate.open();
}

fn play_each<R: Threads + Wait + Sync>(
    rt: &R,
    tree: &SharedTree<Gated>,
    gate: &Gate,
    score: &Score,
    passes: &mut [TreePass<Gated>],
)
    requires ready { All (λ p. IsPassOf tree.now p) passes.old }
    ensures ready { All (λ p. IsPassOf tree.entry.now p) passes.new }
    ensures same { (i : ℕ) (d : _) → i < length passes.old → (slice_index_or passes.new i d).view.opening ≡ (slice_index_or passes.old i d).view.opening }
    ensures count { length passes.new ≡ length passes.old }
{
    thread::for_each_mut(rt, passes, 3, &|_, pass| play(rt, tree, gate, score, pass));
}

#[tactic(auto, using(crate::proofs::Ready::ready_on, crate::proofs::Ready::passes_of))]
fn play_all<R: Threads + Wait + Sync>(
    rt: &R,
    tree: &SharedTree<Gated>,
    gate: &Gate,
    score: &Score,
    passes: &mut [TreePass<Gated>],
)
    requires ready { AreReady tree.now passes.old }
    ensures ready { AreReady tree.entry.now passes.new }
    ensures count { length passes.new ≡ length passes.old }
{
    play_each(rt, tree, gate, score, passes);
}

#[test]
fn branches_do_not_wait_for_each_other(rt: HostRuntime) -> Result<(), Fail> {
    let alloc = rt.alloc();
    let gate = Arc::new(alloc, Gate::new())?;
    let mut sources = Vec::new(alloc);
    for _ in 0..2 {
        sources.push(Gated {
            samples: Recorded::new(ramp(alloc, 65536, 0)?),
            gate: Arc::try_clone(&gate)?,
        })?;
    }
    let (tree, mut passes) = shared(alloc, read(alloc, PAIRS)?, sources, 3)?;
    let score = Score {
        right: AtomicU64::new(0),
    };
    gate.shut();
    play_all(&rt, &tree, &*gate, &score, passes.as_mut_slice());
    assert_eq!(rt; score.right.load(Ordering::SeqCst), 9);
    assert!(rt; !gate.was_late());
    let Ok(closed) = tree.close(alloc, passes) else {
        return Err(Fail::from("no memory"));
    };
    assert_eq!(rt; (closed.calls, closed.tree.calls()), (4, 0));
    for node in 0..closed.tree.plan().nodes() {
        let counts = closed.tree.node_counts(node);
        let got = (counts.live, counts.counter, counts.seeds, counts.gives);
        assert_eq!(rt; Some(&got), NODES.get(usize::from(node)));
    }
    for source in 0..closed.tree.plan().sources() {
        let counts = closed.tree.source_counts(source);
        let got = (counts.taken, counts.blocks);
        assert_eq!(rt; Some(&got), SOURCES.get(usize::from(source)));
    }
    Ok(())
}
