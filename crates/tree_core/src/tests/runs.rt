// Trees over recorded samples, and runs of calls in words.
ghost use Rattle.std.specs.Prelude.{◌≡◌, length, IfOk};

use crate::{Call, OpenRefusal, Reply, SoloTree};
use sample_source::{Recorded, Samples};
use std::alloc::Global;
use std::test::Fail;
use tree_config::TreePlan;
use tree_rules::counts_are_small;

// So many samples, the one at place k being k * step mod 251, but other ones at some places, from .. to.
pub(crate) fn ramp(
    alloc: Global,
    total: u32,
    step: u32,
    others: &[(u8, u32, u32)],
) -> Result<Vec<u8>, Fail> {
    let mut samples = Vec::new(alloc);
    for place in 0..total {
        let mut sample = ((place % 251) * (step % 251) % 251) as u8;
        for (other, from, to) in others {
            if *from <= place && place < *to {
                sample = *other;
            }
        }
        samples.push(sample)?;
    }
    Ok(samples)
}

fn number(word: &str) -> Result<u64, Fail> {
    match word.parse::<u64>() {
        Ok(n) => Ok(n),
        Err(_) => Err(Fail::from("no number")),
    }
}

fn short(word: &str) -> Result<u16, Fail> {
    match u16::try_from(number(word)?) {
        Ok(n) => Ok(n),
        Err(_) => Err(Fail::from("too great a number")),
    }
}

fn wide(word: &str) -> Result<u32, Fail> {
    match u32::try_from(number(word)?) {
        Ok(n) => Ok(n),
        Err(_) => Err(Fail::from("too great a number")),
    }
}

// Bytes in hexadecimal.
fn bytes(alloc: Global, word: &str) -> Result<Vec<u8>, Fail> {
    match hex::decode(alloc, word) {
        Ok(bytes) => Ok(bytes),
        Err(_) => Err(Fail::from("no hexadecimal")),
    }
}

// Which call a line makes.
#[derive(Clone, Copy, PartialEq, Eq)]
enum Kind {
    Instantiate,
    Generate,
    Reseed,
    Uninstantiate,
    Start,
    Status,
}

fn kind_of(word: &str) -> Kind {
    match word {
        "instantiate" => Kind::Instantiate,
        "generate" => Kind::Generate,
        "reseed" => Kind::Reseed,
        "uninstantiate" => Kind::Uninstantiate,
        "start" => Kind::Start,
        _ => Kind::Status,
    }
}

// What the next word of a line is.
#[derive(Clone, Copy, PartialEq, Eq)]
enum Next {
    Kind,
    Node,
    Count,
    Option,
    Strength,
    Text,
}

fn behind_node(kind: Kind) -> Next {
    match kind {
        Kind::Generate => Next::Count,
        _ => Next::Option,
    }
}

fn option_of(word: &str) -> Next {
    match word {
        "strength" => Next::Strength,
        "string" => Next::Text,
        _ => Next::Option,
    }
}

// The call of a line, as `generate 5 64 pr strength 128 string aa`, with its string.
fn call_of(alloc: Global, line: &str) -> Result<(Call, Vec<u8>), Fail> {
    let mut kind = Kind::Status;
    let mut node = 0;
    let mut count = 0;
    let mut pr = false;
    let mut strength = 0;
    let mut string = Vec::new(alloc);
    let mut next = Next::Kind;
    for word in line.split_whitespace() {
        match next {
            Next::Kind => {
                kind = kind_of(word);
                next = Next::Node;
            }
            Next::Node => {
                node = short(word)?;
                next = behind_node(kind);
            }
            Next::Count => {
                count = wide(word)?;
                next = Next::Option;
            }
            Next::Option => {
                pr = pr || word == "pr";
                next = option_of(word);
            }
            Next::Strength => {
                strength = short(word)?;
                next = Next::Option;
            }
            Next::Text => {
                string = bytes(alloc, word)?;
                next = Next::Option;
            }
        }
    }
    let call = match kind {
        Kind::Instantiate => Call::Instantiate { node, strength },
        Kind::Generate => Call::Generate {
            node,
            count,
            strength,
            pr,
        },
        Kind::Reseed => Call::Reseed { node, pr },
        Kind::Uninstantiate => Call::Uninstantiate { node },
        Kind::Start => Call::Start { source: node },
        Kind::Status => Call::Status { node },
    };
    Ok((call, string))
}

// A reply as the cases say it: the code, two numbers, and the bytes in hexadecimal.
pub(crate) fn text_of(alloc: Global, reply: Reply, out: &[u8]) -> Result<String, Fail> {
    let len = reply.len as usize;
    if len > out.len() {
        return Err(Fail::from("too many bytes"));
    }
    let text = if len == 0 {
        String::from_str(alloc, "-")?
    } else {
        hex::encode(alloc, &out[..len])?
    };
    Ok(format!(in alloc; "{} {} {} {}", reply.code, reply.a, reply.b, text)?)
}

// Makes a call, and says its reply.
fn said<S: Samples>(
    alloc: Global,
    tree: &mut SoloTree<S>,
    line: &str,
    out: &mut [u8],
) -> Result<String, Fail> {
    if tree.calls() >= 1 << 40 || out.len() < 65536 {
        return Err(Fail::from("too many calls"));
    }
    let (call, string) = call_of(alloc, line)?;
    let reply = tree.call(&call, &string, out);
    text_of(alloc, reply, out)
}

// The first call, counted from 1, that is answered otherwise, or 0. Lines are a call and its reply in turns.
pub(crate) fn first_other<S: Samples>(
    alloc: Global,
    tree: &mut SoloTree<S>,
    calls: &str,
) -> Result<u64, Fail> {
    let mut out = vec![in alloc; 0u8; 65536]?;
    let mut got = String::new(alloc);
    let mut made = 0u64;
    for (i, line) in calls.lines().enumerate() {
        if i % 2 == 0 {
            got = said(alloc, tree, line, &mut out)?;
            made = made.saturating_add(1);
        } else if got.as_str() != line {
            return Ok(made);
        }
    }
    Ok(0)
}

// The counts at the end, as the cases say them.
pub(crate) fn counts<S: Samples>(alloc: Global, tree: &SoloTree<S>) -> Result<String, Fail> {
    let mut text = String::new(alloc);
    for n in 0..tree.plan().nodes() {
        let counts = tree.node_counts(n);
        let live = u8::from(counts.live);
        text.push_str(format!(in alloc;
            "node {}: live {} counter {} seeds {} gives {}\n",
            n, live, counts.counter, counts.seeds, counts.gives
        )?
        .as_str())?;
    }
    for j in 0..tree.plan().sources() {
        let counts = tree.source_counts(j);
        text.push_str(format!(in alloc;
            "source {}: taken {} blocks {}\n",
            j, counts.taken, counts.blocks
        )?
        .as_str())?;
    }
    Ok(text)
}

// The plan of a text.
pub(crate) fn plan_of(alloc: Global, text: &str) -> Result<TreePlan, Fail> {
    match TreePlan::read(alloc, text.as_bytes()) {
        Ok(plan) => Ok(plan),
        Err(_) => Err(Fail::from("no plan")),
    }
}

// A seed for each node of a plan, of bytes that count up from the first to the last.
pub(crate) fn seeds_of(
    alloc: Global,
    plan: &TreePlan,
    first: u8,
    last: u8,
) -> Result<Vec<Vec<u8>>, Fail>
    ensures { IfOk result (λ seeds. length seeds.items ≡ length plan.now.nodes) }
{
    let mut seeds = Vec::new(alloc);
    for _ in 0..plan.nodes() {
        let mut seed = Vec::new(alloc);
        for byte in first..last {
            seed.push(byte)?;
        }
        seeds.push(seed)?;
    }
    if seeds.len() != usize::from(plan.nodes()) {
        return Err(Fail::from("other nodes"));
    }
    Ok(seeds)
}

// A tree of a plan over its sources, with a seed for each RBG1 of bytes that count up from the first to the last. It was taken apart and
// put together again.
pub(crate) fn opening<S: Samples>(
    alloc: Global,
    text: &str,
    sources: Vec<S>,
    first: u8,
    last: u8,
) -> Result<Result<SoloTree<S>, OpenRefusal>, Fail> {
    let plan = plan_of(alloc, text)?;
    let seeds = seeds_of(alloc, &plan, first, last)?;
    if sources.len() != usize::from(plan.sources()) {
        return Err(Fail::from("other sources"));
    }
    counts_are_small();
    match SoloTree::open(alloc, plan, sources, seeds) {
        Ok(tree) => Ok(Ok(SoloTree::of_parts(tree.into_parts()))),
        Err(why) => Ok(Err(why)),
    }
}

pub(crate) fn opened<S: Samples>(
    alloc: Global,
    text: &str,
    sources: Vec<S>,
    first: u8,
    last: u8,
) -> Result<SoloTree<S>, Fail> {
    match opening(alloc, text, sources, first, last)? {
        Ok(tree) => Ok(tree),
        Err(_) => Err(Fail::from("not opened")),
    }
}

// A tree over one recorded source, the sample at place k being k mod 251, but 9 at some places, from .. to. The seeds have 48 bytes, 0, 1, 2
// and so on.
pub(crate) fn over(
    alloc: Global,
    text: &str,
    total: u32,
    from: u32,
    to: u32,
) -> Result<SoloTree<Recorded>, Fail> {
    let mut sources = Vec::new(alloc);
    sources.push(Recorded::new(ramp(alloc, total, 1, &[(9, from, to)])?))?;
    opened(alloc, text, sources, 0, 48)
}

// Makes calls on a tree, and says which one, counted from 1, is the first that is answered otherwise, or 0. The counts behind them, if any
// are given, are those of the tree.
pub(crate) fn first_wrong<S: Samples>(
    alloc: Global,
    tree: SoloTree<S>,
    calls: [&str; 2],
    at_end: &str,
) -> Result<u64, Fail> {
    let mut tree = tree;
    for part in calls {
        let other = first_other(alloc, &mut tree, part)?;
        if other > 0 {
            return Ok(other);
        }
    }
    if !at_end.is_empty() && counts(alloc, &tree)?.as_str() != at_end {
        return Err(Fail::from("other counts"));
    }
    Ok(0)
}
