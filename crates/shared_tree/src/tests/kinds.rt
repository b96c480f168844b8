// Calls of each kind with strings, one after another, on a shared tree and on the one-thread tree.
ghost use Rattle.std.specs.Prelude.{◌≡◌, ◌≤◌, All, IfOk, length};
ghost use Rattle.shared_tree.specs.Passes.{IsPassOf};

use super::plans::{ramp, read, seeds, shared};
use super::taken::last_pass;
use crate::{SharedTree, TreePass};
use sample_source::Faulty;
use std::alloc::Global;
use std::sync::Wait;
use std::test::Fail;
use tree_config::TreePlan;
use tree_core::{Call, Reply, SoloTree};

// Both RBG3s, an RBG2 with a child, and an RBG1 with a child.
const KINDS: &str = "version = 1
[[source]]
samples = \"one\"
num = 8
den = 1
rct = 4
apt = 257
[[source]]
samples = \"two\"
num = 8
den = 1
rct = 4
apt = 257
[[node]]
kind = \"rbg3-xor\"
drbg = \"hmac-sha-256\"
interval = 1000
source = 0
[[node]]
kind = \"rbg3-rs\"
drbg = \"hmac-sha-512\"
interval = 1000
source = 0
[[node]]
kind = \"rbg2\"
drbg = \"ctr-aes-256\"
interval = 5
source = 1
[[node]]
kind = \"child\"
drbg = \"ctr-aes-128\"
interval = 2
parent = 2
[[node]]
kind = \"rbg1\"
drbg = \"hmac-sha-256\"
interval = 2
seed = \"s48\"
[[node]]
kind = \"child\"
drbg = \"hmac-sha-256\"
interval = 10
parent = 4
";

// Which call a row makes.
#[derive(Clone, Copy)]
enum Kind {
    Instantiate,
    Generate,
    Reseed,
    Uninstantiate,
    Start,
    Status,
}

use Kind::{Generate, Instantiate, Reseed, Start, Status, Uninstantiate};

// Calls, each by its kind, the node or source that it names, the bytes and the strength that it asks, and whether it asks prediction resistance;
// its string; and the code of its reply.
const CALLS: [(Kind, u16, u32, u16, bool, &str, u8); 48] = [
    (Status, 0, 0, 0, false, "", 0),
    (Generate, 0, 32, 0, false, "additional input", 0),
    (Generate, 1, 100, 256, true, "each output draws", 0),
    (Generate, 3, 32, 0, false, "of a child", 0),
    (Reseed, 2, 0, 0, false, "by the source", 0),
    (Reseed, 3, 0, 0, false, "by the parent", 0),
    (Reseed, 3, 0, 0, true, "by the parent and its source", 0),
    (Generate, 3, 65536, 128, false, "", 0),
    (Status, 3, 0, 0, false, "", 0),
    (Instantiate, 3, 0, 0, false, "", 3),
    (Uninstantiate, 3, 0, 0, false, "", 0),
    (Generate, 3, 32, 0, false, "", 4),
    (Instantiate, 3, 0, 192, false, "", 5),
    (Instantiate, 3, 0, 128, false, "a personalization string", 0),
    (Generate, 3, 32, 128, true, "fresh", 0),
    (Generate, 6, 32, 0, false, "", 1),
    (Start, 2, 0, 0, false, "", 1),
    (Generate, 0, 4097, 0, false, "", 2),
    (Generate, 2, 65537, 0, false, "", 2),
    (Reseed, 4, 0, 0, false, "", 6),
    (Generate, 5, 32, 0, true, "", 7),
    (Generate, 5, 1, 0, false, "of an RBG1's child", 0),
    (Generate, 4, 7, 256, false, "", 0),
    (Generate, 4, 7, 256, false, "", 8),
    (Uninstantiate, 4, 0, 0, false, "", 0),
    (Instantiate, 4, 0, 0, false, "", 6),
    (Reseed, 5, 0, 0, false, "", 4),
    (Generate, 5, 32, 0, false, "the last", 0),
    (Reseed, 2, 0, 0, false, "a read fails", 12),
    (Generate, 2, 32, 0, false, "and all is as it was", 0),
    (Reseed, 2, 0, 0, true, "the samples end", 14),
    (Generate, 2, 32, 0, true, "", 14),
    (Generate, 3, 32, 0, false, "drawn before", 0),
    (Generate, 0, 4096, 0, false, "", 13),
    (Generate, 0, 32, 0, false, "", 11),
    (Generate, 1, 32, 0, true, "", 11),
    (Start, 0, 0, 0, false, "", 0),
    (Generate, 1, 200, 0, true, "started again", 0),
    (Generate, 0, 33, 0, false, "started again", 0),
    (Start, 1, 0, 0, false, "", 14),
    (Reseed, 2, 0, 0, false, "", 11),
    (Generate, 2, 16, 0, false, "of a source in error", 0),
    (Status, 0, 0, 0, false, "", 0),
    (Status, 1, 0, 0, false, "", 0),
    (Status, 2, 0, 0, false, "", 0),
    (Status, 3, 0, 0, false, "", 0),
    (Status, 4, 0, 0, false, "", 0),
    (Status, 5, 0, 0, false, "", 0),
];

fn call_of(kind: Kind, named: u16, count: u32, strength: u16, pr: bool) -> Call {
    match kind {
        Instantiate => Call::Instantiate {
            node: named,
            strength,
        },
        Generate => Call::Generate {
            node: named,
            count,
            strength,
            pr,
        },
        Reseed => Call::Reseed { node: named, pr },
        Uninstantiate => Call::Uninstantiate { node: named },
        Start => Call::Start { source: named },
        Status => Call::Status { node: named },
    }
}

// What a call was answered, and its buffer behind it.
#[derive(Drop)]
struct Told {
    reply: Reply,
    out: Vec<u8>,
}

// A buffer that is not empty.
fn buffer(alloc: Global) -> Result<Vec<u8>, Fail>
    ensures { IfOk result (λ out. 65536 ≤ length out.items) }
{
    Ok(vec![in alloc; 0xa5u8; 65600]?)
}

// Makes a call that doesn't wait.
fn at_once(
    alloc: Global,
    tree: &SharedTree<Faulty>,
    pass: &mut TreePass<Faulty>,
    call: Call,
    string: &str,
) -> Result<Told, Fail>
    requires pass { IsPassOf tree.now pass.old }
    ensures pass { IsPassOf tree.entry.now pass.new }
{
    let mut out = buffer(alloc)?;
    if pass.calls() >= 1 << 40 {
        return Err(Fail::from("too many calls"));
    }
    match tree.try_call(pass, &call, string.as_bytes(), &mut out) {
        Ok(reply) => Ok(Told { reply, out }),
        Err(_) => Err(Fail::from("busy")),
    }
}

// Makes a call that may wait.
fn in_time<R: Wait>(
    rt: &R,
    alloc: Global,
    tree: &SharedTree<Faulty>,
    pass: &mut TreePass<Faulty>,
    call: Call,
    string: &str,
) -> Result<Told, Fail>
    requires pass { IsPassOf tree.now pass.old }
    ensures pass { IsPassOf tree.entry.now pass.new }
{
    let mut out = buffer(alloc)?;
    if pass.calls() >= 1 << 40 {
        return Err(Fail::from("too many calls"));
    }
    let reply = tree.call(rt, pass, &call, string.as_bytes(), &mut out);
    Ok(Told { reply, out })
}

// Makes a call in one of these ways.
fn asked<R: Wait>(
    rt: &R,
    alloc: Global,
    tree: &SharedTree<Faulty>,
    pass: &mut TreePass<Faulty>,
    waits: bool,
    call: Call,
    string: &str,
) -> Result<Told, Fail>
    requires pass { IsPassOf tree.now pass.old }
    ensures pass { IsPassOf tree.entry.now pass.new }
{
    match waits {
        false => at_once(alloc, tree, pass, call, string),
        true => in_time(rt, alloc, tree, pass, call, string),
    }
}

// Makes a call on the one-thread tree.
fn solo(
    alloc: Global,
    tree: &mut SoloTree<Faulty>,
    call: Call,
    string: &str,
) -> Result<Told, Fail> {
    let mut out = buffer(alloc)?;
    if tree.calls() >= 1 << 40 {
        return Err(Fail::from("too many calls"));
    }
    let reply = tree.call(&call, string.as_bytes(), &mut out);
    Ok(Told { reply, out })
}

// The first source alarms some way behind its start; a read of the second one fails, and its samples end.
fn sources(alloc: Global) -> Result<Vec<Faulty>, Fail> {
    let mut sources = Vec::new(alloc);
    sources.push(Faulty::new(ramp(alloc, 30_000, 3_000)?, 700, Vec::new(alloc)))?;
    let mut fail = Vec::new(alloc);
    fail.push(7u64)?;
    sources.push(Faulty::new(ramp(alloc, 1_250, 0)?, 700, fail))?;
    Ok(sources)
}

// The one-thread tree of a plan.
fn one_thread(alloc: Global, plan: TreePlan) -> Result<SoloTree<Faulty>, Fail> {
    let strings = seeds(alloc, &plan)?;
    let given = sources(alloc)?;
    if given.len() != usize::from(plan.sources()) || strings.len() != usize::from(plan.nodes()) {
        return Err(Fail::from("other sources"));
    }
    match SoloTree::open(alloc, plan, given, strings) {
        Ok(tree) => Ok(tree),
        Err(_) => Err(Fail::from("not opened")),
    }
}

// The first call, counted from 1, that the shared tree answers otherwise than the one-thread tree or than its row says, or 0.
fn first_other<R: Wait>(
    rt: &R,
    alloc: Global,
    tree: &SharedTree<Faulty>,
    pass: &mut TreePass<Faulty>,
    waits: bool,
    one: &mut SoloTree<Faulty>,
) -> Result<usize, Fail>
    requires pass { IsPassOf tree.now pass.old }
{
    for i in 0..CALLS.len() {
        let (kind, named, count, strength, pr, string, code) = CALLS[i];
        let call = call_of(kind, named, count, strength, pr);
        let got = asked(rt, alloc, tree, pass, waits, call, string)?;
        let want = solo(alloc, one, call, string)?;
        let same = got.reply == want.reply && got.out.as_slice() == want.out.as_slice();
        if got.reply.code != code || !same {
            return Ok(i + 1);
        }
    }
    Ok(0)
}

// Makes all calls on a tree of one caller's pass and on the one-thread tree.
#[tactic(auto, using(crate::proofs::Ready::passes_of))]
fn first_other_of<R: Wait>(rt: &R, alloc: Global, waits: bool) -> Result<usize, Fail> {
    let (tree, mut passes) = shared(alloc, read(alloc, KINDS)?, sources(alloc)?, 1)?;
    let mut pass = last_pass(&tree, &mut passes)?;
    let mut one = one_thread(alloc, read(alloc, KINDS)?)?;
    first_other(rt, alloc, &tree, &mut pass, waits, &mut one)
}

#[test]
fn each_kind_of_call_is_answered_as_by_one_thread(rt: HostRuntime) -> Result<(), Fail> {
    let alloc = rt.alloc();
    assert_eq!(rt; first_other_of(&rt, alloc, false)?, 0);
    assert_eq!(rt; first_other_of(&rt, alloc, true)?, 0);
    Ok(())
}
