// Nodes that make a tree and those that do not, the numbers of entries, and texts that are no TOML.
use crate::tests::texts::{NODE_WITH_A_CHILD, comes_to, cut};
use std::alloc::Global;
use std::test::Fail;

// Each row is the nodes of a text, each by its parent and its DRBG, and what the text comes to. A node without a parent has a `-`.
// The DRBGs are `h` for hmac-sha-256, `s` for hmac-sha-512, `m` for ctr-aes-192 and `w` for ctr-aes-128.
const NODES: &str = "-h : plan
1h -h : plan
0h : Cycle { node: 0 }
1h : NoSuchParent { node: 0, parent: 1 }
-h 70000h : NoSuchParent { node: 1, parent: 70000 }
9223372036854775807h -h : NoSuchParent { node: 0, parent: 9223372036854775807 }
1h 0h 3h : NoSuchParent { node: 2, parent: 3 }
2h -h 3h 2h : Cycle { node: 2 }
1h 2h 0h : Cycle { node: 0 }
-h 0h 1h 2h 3h 4h 5h 6h : plan
-h 0h 1h 2h 3h 4h 5h 6h 7h : TooDeep { node: 8 }
1h 2h 3h 4h 5h 6h 7h 8h 9h -h : TooDeep { node: 0 }
-h 0h 1h 2h 3h 4h 5h 6h 7h 9h : Cycle { node: 9 }
-w 0h 1h 2h 3h 4h 5h 6h 7h : TooDeep { node: 8 }
-h 0w 1m 1h : StrengthRises { node: 2, own: 192, parent: 128 }
-h 0m 1w 0s : plan";

// The text of a node.
fn node_text(alloc: Global, node: &str) -> Result<String, Fail> {
    let kind = if node.starts_with("-") {
        "kind = \"rbg1\"\nseed = \"s\""
    } else {
        "kind = \"child\"\nparent = "
    };
    let drbg = if node.ends_with("h") {
        "hmac-sha-256"
    } else if node.ends_with("s") {
        "hmac-sha-512"
    } else if node.ends_with("m") {
        "ctr-aes-192"
    } else {
        "ctr-aes-128"
    };
    let parent = node.trim_matches(|c: char| !c.is_ascii_digit());
    Ok(format!(in alloc; "[[node]]\n{kind}{parent}\ndrbg = \"{drbg}\"\n")?)
}

// The text of a row's nodes.
fn nodes_text(alloc: Global, nodes: &str) -> Result<String, Fail> {
    let mut text = String::from_str(alloc, "version = 1\n")?;
    for node in nodes.split_whitespace() {
        text.push_str(&node_text(alloc, node)?)?;
    }
    Ok(text)
}

#[test]
fn the_first_fault_of_nodes(rt: HostRuntime) -> Result<(), Fail> {
    let alloc = rt.alloc();
    for row in NODES.lines() {
        let (nodes, want) = cut(row, " : ")?;
        let text = nodes_text(alloc, nodes)?;
        assert!(rt; comes_to(alloc, text.as_bytes(), want)?, "{nodes}");
    }
    Ok(())
}

// A text with so many empty tables of each.
fn counted(alloc: Global, more: &str, sources: usize, nodes: usize) -> Result<String, Fail> {
    let sources = "{},".repeat(alloc, sources)?;
    let nodes = "{},".repeat(alloc, nodes)?;
    Ok(format!(in alloc;
        "version = 1\n{more}\nsource = [{}]\nnode = [{}]\n",
        sources.as_str(),
        nodes.as_str()
    )?)
}

#[test]
fn numbers_of_sources_and_nodes(rt: HostRuntime) -> Result<(), Fail> {
    let alloc = rt.alloc();
    for (more, sources, nodes, want) in [
        ("x = 1", 5, 64, "BadField { place: Top, field: Unknown }"),
        ("", 5, 64, "TooMany { nodes: false, count: 5, limit: 4 }"),
        ("", 4, 64, "TooMany { nodes: true, count: 64, limit: 63 }"),
        ("", 4, 63, "BadField { place: Source(0), field: Samples }"),
        ("", 0, 63, "BadField { place: Node(0), field: NodeKind }"),
    ] {
        let text = counted(alloc, more, sources, nodes)?;
        assert!(rt; comes_to(alloc, text.as_bytes(), want)?, "{want}");
    }
    Ok(())
}

// Whole texts, parted by lines of `---`, that are no TOML, whatever else is wrong with them.
const NO_TOML: &str = "version = 2
version = 2
---
version = 99999999999999999999
---
version = 2
x = 9223372036854775808
---
version = 2
[source]
[[source]]
---
version = 2
version.x = 1
---
version
---
version = \"1";

// A configuration with a comment behind it, so many bytes in all.
fn filled(alloc: Global, len: usize) -> Result<String, Fail> {
    let filling = "#".repeat(alloc, len.saturating_sub(NODE_WITH_A_CHILD.len()))?;
    Ok(format!(in alloc; "{NODE_WITH_A_CHILD}{}", filling.as_str())?)
}

#[test]
fn a_text_has_at_most_65_536_bytes(rt: HostRuntime) -> Result<(), Fail> {
    let alloc = rt.alloc();
    let large = "TooLarge { limit: 65536 }";
    let text = filled(alloc, 65536)?;
    assert_eq!(rt; text.len(), 65536);
    assert!(rt; comes_to(alloc, text.as_bytes(), "plan")?);
    let text = filled(alloc, 65537)?;
    assert!(rt; comes_to(alloc, text.as_bytes(), large)?);
    // the length comes before what the bytes are
    let no_text = vec![in alloc; 0xffu8; 65537]?;
    assert!(rt; comes_to(alloc, &no_text, large)?);
    let no_text = vec![in alloc; 0xffu8; 65536]?;
    assert!(rt; comes_to(alloc, &no_text, "BadToml")?);
    Ok(())
}

#[test]
fn texts_that_are_not_toml(rt: HostRuntime) -> Result<(), Fail> {
    let alloc = rt.alloc();
    for text in NO_TOML.split("---\n") {
        assert!(rt; comes_to(alloc, text.as_bytes(), "BadToml")?, "{text}");
    }
    // an integer at the end of 64 bits, a text without a key, and one that begins with a byte order mark
    for text in [
        "version = 2\nx = 9223372036854775807",
        "",
        "\u{feff}version = 2",
    ] {
        let want = "BadField { place: Top, field: Version }";
        assert!(rt; comes_to(alloc, text.as_bytes(), want)?, "{text}");
    }
    Ok(())
}
