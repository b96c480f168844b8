// Each field and each way in which it can be wrong, the ends of its range, and the order of the fields.
use crate::tests::texts::{
    NODE_WITH_A_CHILD, comes_to, cut, fault_at, first_miss, first_slip, replaced,
};
use std::alloc::Global;
use std::test::Fail;

const TOP: &str = "version = 1; ->  : Version
version = 1 -> version = \"1\" : Version
version = 1 -> version = 1.0 : Version
version = 1 -> version = 0 : Version
version = 1 -> version = 2 : Version
version = 1 -> version = -1 : Version
opening = \"none\"; ->  : -
\"none\" -> \"all\" : -
\"none\" -> \"None\" : Opening
\"none\" -> \"\" : Opening
\"none\" -> false : Opening
[[source]] -> [source] : Sources
[[source]] -> source = 1;[x] : Sources
[[source]] -> source = [1];[x] : Sources
[[source]] -> source = [{}, []];[x] : Sources
opening -> x : Unknown
opening -> Opening : Unknown
opening -> \"\" : Unknown
opening = \"none\" -> retire.x = 1 : Unknown";

const SOURCE: &str = "samples = \"ramp\"; ->  : Samples
\"ramp\" -> 7 : Samples
\"ramp\" -> \"\" : Samples
\"ramp\" -> \"r\" : -
num = 8; ->  : Num
num = 8 -> num = \"8\" : Num
num = 8 -> num = 8.0 : Num
num = 8 -> num = 0 : Num
num = 8 -> num = -8 : Num
num = 8;den = 1 -> num = 8001;den = 1000 : Num
num = 8;den = 1 -> num = 8000;den = 1000 : -
num = 8 -> num = 1 : -
den = 1; ->  : Den
den = 1 -> den = true : Den
den = 1 -> den = 0 : Den
den = 1 -> den = 1001 : Den
num = 8 -> num = 9 : Den
den = 1 -> den = 1;binary = true : Den
num = 8;den = 1 -> num = 3;den = 2;binary = true : Den
num = 8;den = 1 -> num = 1;den = 1;binary = true : -
den = 1 -> den = 1;binary = 1 : Binary
den = 1 -> den = 1;binary = \"true\" : Binary
rct = 4; ->  : Rct
rct = 4 -> rct = 4;rct_a = 20 : Rct
rct = 4 -> rct = 1 : Rct
rct = 4 -> rct = 2 : -
rct = 4 -> rct = 4294967296 : Rct
rct = 4 -> rct = 4294967295 : -
rct = 4 -> rct = [] : Rct
rct = 4 -> rct_a = 0 : RctA
rct = 4 -> rct_a = 1 : -
rct = 4 -> rct_a = 65 : RctA
rct = 4 -> rct_a = 64 : -
rct = 4 -> rct_a = \"1\" : RctA
apt = 257; ->  : Apt
apt = 257 -> apt = \"257\" : Apt
apt = 257 -> apt = 1 : Apt
apt = 257 -> apt = 2 : -
apt = 257 -> apt = 513 : Apt
apt = 257 -> apt = 512 : -
num = 8;den = 1;rct = 4;apt = 257 -> num = 1;den = 1;rct = 4;apt = 1025;binary = true : Apt
num = 8;den = 1;rct = 4;apt = 257 -> num = 1;den = 1;rct = 4;apt = 1024;binary = true : -
apt = 257 -> apt = 257;startup = 1023 : Startup
apt = 257 -> apt = 257;startup = 1024 : -
apt = 257 -> apt = 257;startup = 65537 : Startup
apt = 257 -> apt = 257;startup = 65536 : -
apt = 257 -> apt = 257;startup = \"\" : Startup
apt = 257 -> apt = 257;conditioner = \"df-aes-256\" : -
apt = 257 -> apt = 257;conditioner = \"cmac-aes-256\" : Conditioner
apt = 257 -> apt = 257;conditioner = 1 : Conditioner
apt = 257 -> apt = 257;retire = 1 : Unknown
apt = 257 -> apt = 257;x.y = 1 : Unknown";

// Changes of node 0, which is an RBG2.
const DRAWN: &str = "kind = \"rbg2\"; ->  : NodeKind
\"rbg2\" -> 2 : NodeKind
\"rbg2\" -> \"rbg4\" : NodeKind
\"rbg2\" -> \"rbg3-xor\" : -
\"rbg2\" -> \"rbg3-rs\" : -
interval = 2; ->  : -
interval = 2 -> interval = \"2\" : Interval
interval = 2 -> interval = 0 : Interval
interval = 2 -> interval = -2 : Interval
interval = 2 -> interval = 281474976710657 : Interval
interval = 2 -> interval = 281474976710656 : -
source = 0; ->  : Source
source = 0 -> source = true : Source
source = 0 -> source = 1 : Source
source = 0 -> source = -1 : Source
source = 0 -> source = 256 : Source
source = 0 -> source = 0;parent = 1 : Parent
source = 0 -> source = 0;seed = \"s\" : Seed
kind = \"rbg2\" -> kind = \"rbg1\";seed = \"s\" : Source
\"rbg2\" -> \"child\" : Source
source = 0 -> source = 0;retire = 1 : Unknown";

// Changes of node 1, which is a child.
const CHILD: &str = "drbg = \"ctr-aes-256\"; ->  : Drbg
\"ctr-aes-256\" -> 256 : Drbg
\"ctr-aes-256\" -> \"hmac-sha-224\" : Drbg
\"ctr-aes-256\" -> \"ctr-aes-192\" : -
\"ctr-aes-256\" -> \"ctr-aes-128\" : -
\"ctr-aes-256\" -> \"hmac-sha-384\" : -
\"ctr-aes-256\" -> \"hmac-sha-512\" : -
interval = 1 -> interval = 0 : Interval
parent = 0; ->  : Parent
parent = 0 -> parent = \"0\" : Parent
parent = 0 -> parent = -1 : Parent
parent = 0 -> parent = 0;source = 0 : Source
parent = 0 -> source = 0 : Source
parent = 0 -> parent = 0;seed = \"s\" : Seed
\"child\" -> \"rbg1\" : Parent
kind = \"child\" -> kind = \"rbg1\";source = 0 : Source
parent = 0 -> parent = 0;kinds = \"child\" : Unknown
parent = 0 -> parent = 0;samples = \"ramp\" : Unknown
parent = 0 -> parent = 0;\"parent \" = 0 : Unknown
parent = 0 -> parent = 0;# parent = 1 : -
kind = \"child\";drbg = \"ctr-aes-256\";interval = 1;parent = 0 -> kind = \"rbg1\";drbg = \"ctr-aes-256\" : Seed
kind = \"child\";drbg = \"ctr-aes-256\";interval = 1;parent = 0 -> kind = \"rbg1\";drbg = \"ctr-aes-256\";seed = 1 : Seed
kind = \"child\";drbg = \"ctr-aes-256\";interval = 1;parent = 0 -> kind = \"rbg1\";drbg = \"ctr-aes-256\";seed = \"\" : Seed
kind = \"child\";drbg = \"ctr-aes-256\";interval = 1;parent = 0 -> kind = \"rbg1\";drbg = \"ctr-aes-256\";seed = \"s\" : -";

// Changes of a text of which the nodes are wrong.
const NO_NODES: &str = "HERE ->  : Nodes
HERE -> node = 1 : Nodes
HERE -> node = [1] : Nodes
HERE -> node = [] : Nodes
HERE -> [node] : Nodes
HERE -> node = [{}, 1] : Nodes
HERE -> source = [] : Nodes";

const NO_SOURCES: &str = "version = 1
node = [{ kind = \"rbg2\", drbg = \"ctr-aes-128\", HERE }]";

#[test]
fn each_field_and_its_range(rt: HostRuntime) -> Result<(), Fail> {
    let alloc = rt.alloc();
    for (text, place, table) in [
        (NODE_WITH_A_CHILD, "Top", TOP),
        ("version = 1\nHERE", "Top", NO_NODES),
        (NODE_WITH_A_CHILD, "Source(0)", SOURCE),
        (NODE_WITH_A_CHILD, "Node(0)", DRAWN),
        (NODE_WITH_A_CHILD, "Node(1)", CHILD),
        // no source is in a file without sources
        (NO_SOURCES, "Node(0)", "HERE -> source = 0 : Source"),
    ] {
        assert_eq!(rt; first_miss(alloc, text, place, table)?, "");
    }
    Ok(())
}

const SEED: &str = "version = 1
[[node]]
kind = \"rbg1\"
drbg = \"ctr-aes-128\"
seed = \"NAME\"";

// Whether a text in which the name is so many letters has this field at fault, or none for a `-`.
fn with_name(
    alloc: Global,
    (text, place): (&str, &str),
    (letter, count): (&str, usize),
    field: &str,
) -> Result<bool, Fail> {
    let name = letter.repeat(alloc, count)?;
    let text = replaced(alloc, text, "NAME", name.as_str())?;
    let want = fault_at(alloc, place, field)?;
    comes_to(alloc, text.as_bytes(), want.as_str())
}

#[test]
fn names_have_1_to_255_bytes(rt: HostRuntime) -> Result<(), Fail> {
    let alloc = rt.alloc();
    let samples = replaced(alloc, NODE_WITH_A_CHILD, "ramp", "NAME")?;
    let seed = (SEED, "Node(0)");
    let samples = (samples.as_str(), "Source(0)");
    // a letter of one byte and one of two bytes
    for (name, seeds, sources) in [
        (("a", 255), "-", "-"),
        (("a", 256), "Seed", "Samples"),
        (("é", 127), "-", "-"),
        (("é", 128), "Seed", "Samples"),
    ] {
        assert!(rt; with_name(alloc, seed, name, seeds)?);
        assert!(rt; with_name(alloc, samples, name, sources)?);
    }
    Ok(())
}

const TOP_LADDER: &str = "version = 2 | version = 1 | Version
opening = 1 | opening = \"all\" | Opening
source = 1 | source = [{}] | Sources
node = 1 | node = [{}] | Nodes
x = 1 | # | Unknown";

const SOURCE_LADDER: &str = "samples = 7 | samples = \"ramp\" | Samples
num = 0 | num = 8 | Num
den = 0 | den = 1 | Den
binary = 1 | binary = false | Binary
rct = 1 | # | Rct
rct_a = 0 | rct_a = 20 | RctA
apt = 1 | apt = 257 | Apt
startup = 1 | startup = 1024 | Startup
conditioner = 1 | conditioner = \"df-aes-256\" | Conditioner
x = 1 | # | Unknown";

const NODE_LADDER: &str = "kind = 1 | kind = \"child\" | NodeKind
drbg = 1 | drbg = \"hmac-sha-256\" | Drbg
interval = 0 | interval = 1 | Interval
source = 0 | # | Source
parent = -1 | parent = 0 | Parent
seed = \"s\" | # | Seed
x = 1 | # | Unknown";

// Whole places in their order, and what they come to. A right node is a child of itself.
const PLACES: &str =
    "version = 1;[[source]];S[[source]];[[node]];[[node]] : BadField { place: Source(1), field: Samples }
version = 1;[[source]];S[[node]];[[node]];N : BadField { place: Node(0), field: NodeKind }
version = 1;[[node]];N[[node]] : BadField { place: Node(1), field: NodeKind }
version = 1;[[node]];N : Cycle { node: 0 }";

// The text of a row: `S` stands for a right source, `N` for a right node, and `;` for the end of a line.
fn places(alloc: Global, row: &str) -> Result<String, Fail> {
    let source = "samples = \"ramp\"\nnum = 8\nden = 1\nrct = 4\napt = 257\n";
    let node = "kind = \"child\"\ndrbg = \"hmac-sha-256\"\nparent = 0\n";
    let text = replaced(alloc, row, "S", source)?;
    let text = replaced(alloc, text.as_str(), "N", node)?;
    replaced(alloc, text.as_str(), ";", "\n")
}

#[test]
fn the_first_of_several_fields(rt: HostRuntime) -> Result<(), Fail> {
    let alloc = rt.alloc();
    for (head, place, ladder) in [
        ("", "Top", TOP_LADDER),
        (
            "version = 1\nnode = [{}]\n[[source]]\n",
            "Source(0)",
            SOURCE_LADDER,
        ),
        ("version = 1\n[[node]]\n", "Node(0)", NODE_LADDER),
    ] {
        assert_eq!(rt; first_slip(alloc, head, place, ladder)?, "");
    }
    for row in PLACES.lines() {
        let (row, want) = cut(row, " : ")?;
        let text = places(alloc, row)?;
        assert!(rt; comes_to(alloc, text.as_bytes(), want)?, "{row}");
    }
    Ok(())
}
