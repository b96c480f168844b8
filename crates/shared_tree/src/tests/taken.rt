// Calls while the test itself has the turn of a node.
ghost use Rattle.std.specs.Prelude.{◌≡◌, ◌<◌, All, IfOk, IfSome, length};
ghost use Rattle.turn_table.specs.Calls.{MayPut};
ghost use Rattle.shared_tree.specs.Machine.{tree_meaning};
ghost use Rattle.shared_tree.specs.Passes.{IsPassOf};

use super::asking::{Said, generate, try_ask};
use super::plans::{PAIRS, ramp, read, shared};
use crate::{Busy, SharedTree, SlotValue, TreePass};
use sample_source::{Recorded, Samples};
use std::process::Abort;
use std::test::Fail;
use tree_core::Call;

// Takes the turn of a node for the node itself.
fn hold<S: Samples>(tree: &SharedTree<S>, pass: &mut TreePass<S>, node: u16) -> Option<SlotValue<S>>
    requires pass { IsPassOf tree.now pass.old }
    requires node { node < length tree.now.plan.nodes }
    ensures own { pass.new.table ≡ tree.entry.now.table }
    ensures turn { IfSome result (λ value. MayPut (tree_meaning S.told S.faults) node value pass.new.view) }
{
    match tree.turns.try_take(pass, node, node) {
        Ok(value) => Some(value),
        Err(_) => None,
    }
}

// Gives the turn back, with the value as it was.
fn release<S: Samples>(tree: &SharedTree<S>, pass: &mut TreePass<S>, node: u16, value: SlotValue<S>)
    requires own { pass.old.table ≡ tree.now.table }
    requires turn { MayPut (tree_meaning S.told S.faults) node value pass.old.view }
{
    tree.turns.put_back(pass, node, value);
}

// What a call that doesn't wait is told.
fn told<S: Samples>(
    tree: &SharedTree<S>,
    pass: &mut TreePass<S>,
    call: Call,
) -> Result<Result<Said, Busy>, Fail>
    requires pass { IsPassOf tree.now pass.old }
    ensures pass { IsPassOf tree.entry.now pass.new }
{
    match try_ask(tree, pass, call) {
        Some(answer) => Ok(answer),
        None => Err(Fail::from("too many calls")),
    }
}

// Takes the last of some passes.
pub(crate) fn last_pass<S: Samples>(
    tree: &SharedTree<S>,
    passes: &mut Vec<TreePass<S>>,
) -> Result<TreePass<S>, Fail>
    requires { All (λ p. IsPassOf tree.now p) passes.old.items }
    ensures pass { IfOk result (λ p. IsPassOf tree.now p) }
    ensures others { All (λ p. IsPassOf tree.now p) passes.new.items }
{
    match passes.pop() {
        Some(pass) => Ok(pass),
        None => Err(Fail::from("no pass")),
    }
}

// The first of two callers asks node 2 for bytes, and then takes the turn of a node. What the second one is told: two calls while that turn is
// held, and a third one when it is given back.
#[tactic(auto, using(crate::proofs::Ready::passes_of))]
fn told_beside(
    rt: &(impl Abort + AllocGlobal),
    held: u16,
    calls: [Call; 3],
) -> Result<[Result<Said, Busy>; 3], Fail> {
    let alloc = rt.alloc();
    let mut sources = Vec::new(alloc);
    for _ in 0..2 {
        sources.push(Recorded::new(ramp(alloc, 65536, 0)?))?;
    }
    let (tree, mut passes) = shared(alloc, read(alloc, PAIRS)?, sources, 2)?;
    let mut second = last_pass(&tree, &mut passes)?;
    let mut first = last_pass(&tree, &mut passes)?;
    if held >= tree.plan.nodes() {
        return Err(Fail::from("no such node"));
    }
    match told(&tree, &mut first, generate(2, false))? {
        Ok(said) => assert_eq!(rt; said.code, 0),
        Err(_) => return Err(Fail::from("busy")),
    }
    let Some(value) = hold(&tree, &mut first, held) else {
        return Err(Fail::from("not taken"));
    };
    let one = told(&tree, &mut second, calls[0])?;
    let two = told(&tree, &mut second, calls[1])?;
    release(&tree, &mut first, held, value);
    let three = told(&tree, &mut second, calls[2])?;
    Ok([one, two, three])
}

// The status of a node that was seeded once and has given once: live, its reseed counter, seeds and gives.
const ONCE: [u8; 25] = [
    1, 0, 0, 0, 0, 0, 0, 0, 2, 0, 0, 0, 0, 0, 0, 0, 1, 0, 0, 0, 0, 0, 0, 0, 1,
];

fn status(node: u16) -> Call {
    Call::Status { node }
}

#[test]
fn a_call_needs_the_turns_of_its_chain(rt: HostRuntime) -> Result<(), Fail> {
    // Node 2 is held. A call on its parent needs the parent alone; one on the node itself finds it held, and is answered afterwards.
    let calls = [Call::Uninstantiate { node: 0 }, status(2), status(2)];
    let [Ok(ended), Err(busy), Ok(after)] = told_beside(&rt, 2, calls)? else {
        return Err(Fail::from("other answers"));
    };
    let want = Busy {
        slot: 2,
        holder: 1,
        target: 2,
    };
    assert_eq!(rt; busy, want);
    assert_eq!(rt; (ended.code, after.code), (0, 0));
    // Node 0 is held. A call that draws on it from node 2 gives the turn of node 2 back, and node 2 is as it was.
    let calls = [generate(2, true), status(2), generate(2, true)];
    let [Err(busy), Ok(beside), Ok(after)] = told_beside(&rt, 0, calls)? else {
        return Err(Fail::from("other answers"));
    };
    let want = Busy {
        slot: 0,
        holder: 1,
        target: 0,
    };
    assert_eq!(rt; busy, want);
    assert_eq!(rt; (beside.code, after.code), (0, 0));
    assert_eq!(rt; &beside.bytes[..25], ONCE.as_slice());
    Ok(())
}
