// The plans of the sample configurations and the stock plan, and what is printed.
ghost use Rattle.std.specs.Prelude.{◌<◌, ◌≤◌, length};

use crate::tests::texts::{NODE_WITH_A_CHILD, RBG3_AND_RBG1, TWO_SOURCES, first_misprint, plan_of};
use crate::{ConfigFault, Field, Origin, SourcePlan, TreePlan, cond_name, drbg_name};
use std::alloc::Global;
use std::test::Fail;

// Opening a source and making its tests asks this of a plan's numbers.
fn opens(num: u32, den: u32, startup: u32) -> bool
    requires num_low { 1 ≤ num }
    requires num_high { num ≤ 8000 }
    requires den_low { 1 ≤ den }
    requires den_high { den ≤ 1000 }
    requires startup_low { 1 ≤ startup }
    requires startup_high { startup ≤ 65536 }
{
    num > 0 && den > 0 && startup > 0
}

fn source_line(alloc: Global, source: &SourcePlan) -> Result<String, Fail> {
    let name = source.samples.as_str();
    let cond = cond_name(source.cond);
    let cutoffs = &source.cutoffs;
    Ok(format!(in alloc;
        "{name} {}/{} {} {} {} {} {cond}\n",
        source.num,
        source.den,
        cutoffs.rct(),
        cutoffs.window(),
        cutoffs.apt(),
        source.startup
    )?)
}

fn origin_text(alloc: Global, origin: &Origin) -> Result<String, Fail> {
    Ok(match origin {
        Origin::SeedFile(name) => format!(in alloc; "seed {}", name.as_str())?,
        Origin::Source(j) => format!(in alloc; "source {j}")?,
        Origin::Parent(i) => format!(in alloc; "parent {i}")?,
    })
}

fn node_line(alloc: Global, plan: &TreePlan, n: u16) -> Result<String, Fail>
    requires { n < length plan.now.nodes }
{
    let node = plan.node(n);
    let origin = origin_text(alloc, &node.origin)?;
    Ok(format!(in alloc;
        "{} {} {} {} {}\n",
        node.kind.name(),
        drbg_name(node.drbg),
        node.interval,
        origin.as_str(),
        plan.depth(n)
    )?)
}

// All that a plan holds: a line for the opening, one for each source and one for each node.
fn plan_text(alloc: Global, plan: &TreePlan) -> Result<String, Fail> {
    let opening = if plan.opens_all() { "all\n" } else { "none\n" };
    let mut text = String::from_str(alloc, opening)?;
    for j in 0..plan.sources() {
        let source = plan.source(j);
        if opens(source.num, source.den, source.startup) {
            text.push_str(&source_line(alloc, source)?)?;
        }
    }
    for n in 0..plan.nodes() {
        text.push_str(&node_line(alloc, plan, n)?)?;
    }
    Ok(text)
}

// One cutoff is computed, 1 + ceil(20 / (3 / 4)) = 28, the samples are binary, and all else has its default or is an inline table.
const INLINE_TABLES: &str = "version = 1
node = [{ kind = \"rbg2\", drbg = \"ctr-aes-192\", source = 0 }]
source = [{ samples = \"a/b\", num = 3, den = 4, binary = true, rct_a = 20, apt = 1024, startup = 65536, conditioner = \"df-aes-256\" }]
";

#[test]
fn the_samples_are_these_plans(rt: HostRuntime) -> Result<(), Fail> {
    let alloc = rt.alloc();
    for (text, want) in [
        (
            NODE_WITH_A_CHILD,
            "none
ramp 8/1 4 512 257 1024 hmac-sha-256
rbg2 hmac-sha-256 2 source 0 1
child ctr-aes-256 1 parent 0 2
",
        ),
        (
            TWO_SOURCES,
            "all
ramp 8/1 4 512 257 1024 hmac-sha-256
ramp 8/1 4 512 257 1024 hmac-sha-256
rbg2 hmac-sha-256 50 source 0 1
rbg2 hmac-sha-256 50 source 1 1
child hmac-sha-256 100 parent 0 2
child hmac-sha-256 100 parent 1 2
",
        ),
        (
            RBG3_AND_RBG1,
            "all
ramp 8/1 4 512 257 1024 hmac-sha-256
rbg3-xor hmac-sha-256 1000 source 0 1
rbg3-rs hmac-sha-256 1000 source 0 1
rbg1 hmac-sha-256 2 seed s48 1
child ctr-aes-128 10 parent 2 2
",
        ),
        (
            INLINE_TABLES,
            "all
a/b 3/4 28 1024 1024 65536 df-aes-256
rbg2 ctr-aes-192 65536 source 0 1
",
        ),
    ] {
        let plan = plan_of(alloc, text)?;
        let got = plan_text(alloc, &plan)?;
        assert_eq!(rt; got.as_str(), want);
    }
    match TreePlan::stock(alloc) {
        Ok(plan) => {
            let got = plan_text(alloc, &plan)?;
            assert_eq!(rt;
                got.as_str(),
                "all\nrbg1 hmac-sha-256 281474976710656 seed  1\n"
            );
        }
        Err(_) => return Err(Fail::from("out of memory")),
    }
    Ok(())
}

const PRINTED: &str = "version -> = : not TOML
opening -> x : bad field Unknown at top
num = 8 -> num = 9 : bad field Den at source 0
rct = 4 -> rct_a = 0 : bad field RctA at source 0
interval = 1 -> interval = 0 : bad field Interval at node 1
[[source]] -> [[source]];[[source]];[[source]];[[source]];[[source]] : too many sources
parent = 0 -> parent = 7 : no such parent at node 1
parent = 0 -> parent = 1 : cycle at node 1
hmac-sha-256 -> ctr-aes-128 : strength rises at node 1";

#[test]
fn faults_and_names_print(rt: HostRuntime) -> Result<(), Fail> {
    let alloc = rt.alloc();
    assert_eq!(rt; first_misprint(alloc, NODE_WITH_A_CHILD, PRINTED)?, "");
    let large = format!(in alloc; "{}", ConfigFault::TooLarge { limit: 65536 })?;
    assert_eq!(rt; large.as_str(), "too large");
    let many = format!(in alloc;
        "{}",
        ConfigFault::TooMany {
            nodes: true,
            count: 64,
            limit: 63
        }
    )?;
    assert_eq!(rt; many.as_str(), "too many nodes");
    let deep = format!(in alloc; "{}", ConfigFault::TooDeep { node: 62 })?;
    assert_eq!(rt; deep.as_str(), "too deep at node 62");
    assert_eq!(rt; Field::NodeKind.name(), "NodeKind");
    Ok(())
}
