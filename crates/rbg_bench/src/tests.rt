// What words ask for, and their lines.
use crate::job::read_job;
use crate::line::line_of;
use crate::tree_job::read_tree_job;
use crate::tree_line::tree_line;
use std::alloc::Global;
use std::test::Fail;
use tree_config::TreePlan;

// One source, and one node that draws on it.
const PLAN: &str = r#"version = 1
[[source]]
samples = "ramp"
num = 8
den = 1
rct = 4
apt = 257
[[node]]
kind = "rbg2"
drbg = "hmac-sha-256"
interval = 1000
source = 0
"#;

// The words of a text.
fn words_of(alloc: Global, text: &str) -> Result<Vec<String>, Fail> {
    let mut words = Vec::new(alloc);
    for word in text.split(' ') {
        words.push(word.to_string(alloc)?)?;
    }
    Ok(words)
}

// The line of the job that these words ask for, where they ask for one.
fn line(alloc: Global, text: &str) -> Result<Option<String>, Fail> {
    Ok(match read_job(&words_of(alloc, text)?) {
        Some(job) => Some(line_of(alloc, job)?),
        None => None,
    })
}

// The line of the work on a tree of the plan that these words ask for, where they ask for some.
fn line_of_tree(alloc: Global, text: &str) -> Result<Option<String>, Fail> {
    let Ok(plan) = TreePlan::read(alloc, PLAN.as_bytes()) else {
        return Err(Fail::from("no plan"));
    };
    Ok(match read_tree_job(&words_of(alloc, text)?) {
        Some(job) => tree_line(alloc, plan, job).ok(),
        None => None,
    })
}

// The values come from other implementations.
#[test]
fn lines_are_those_of_their_words(rt: HostRuntime) -> Result<(), Fail> {
    for (text, want) in [
        (
            "hmac-sha-384 100 3",
            "8d51ba93d61c3fb8063ece354654154d21becb141346652cd96fd550a342e1f3",
        ),
        (
            "ctr-aes-256 65536 1",
            "6df058dc1ba3fe960e873961f12e22a9a3f00f87eec1956fa9d8092adeeef5e5",
        ),
        ("aes-128-block 1", "c6a13b37878f5b826f4f8162a1c8d879"),
        ("aes-256-four-blocks 1", "f29000b62a499fd0a9f39a6add2e7780"),
        (
            "sha-256 +3",
            "3381de4ca9f3a477f25989dfc8b744e7916046b7aa369f61a9a2f7dc0963ec9e",
        ),
        (
            "reseeded hmac-sha-256 100 3",
            "c6bf4d8b4beb6a89e427b3d753b41202c91ff696246d3efa4a147f32aad92608",
        ),
        ("health-step 600 256", "153363 samples, 1 alarms"),
        ("health-slice 600 0256", "153363 samples, 1 alarms"),
    ] {
        assert!(rt; line(rt.alloc(), text)?.is_some_and(|line| line.as_str() == want));
    }
    Ok(())
}

#[test]
fn other_words_are_refused(rt: HostRuntime) -> Result<(), Fail> {
    for text in [
        "hmac-sha-384 65537 1",
        "ctr-aes-128 1 0",
        "sha-256 100000001",
        "sha-256 -1",
        "sha-512 1",
        "sha-256",
        "sha-256 1 1",
        "health-step 0 1",
        "health-slice 1 1000001",
        "health-slice 1 1 1",
        "reseeded hmac-sha-256 1 0",
        "reseeded sha-256 1 1",
    ] {
        assert!(rt; line(rt.alloc(), text)?.is_none());
    }
    Ok(())
}

// The values are computed from the standard by a script.
#[test]
fn lines_of_a_tree_are_those_of_its_plan(rt: HostRuntime) -> Result<(), Fail> {
    for (text, want) in [
        (
            "calls 0 100 3",
            "3 done, 6e31bfbdafaf7879036ba3e79940f206c5987c3dfa2b906b5b60866858e9782b",
        ),
        (
            "calls-pr 0 100 2",
            "2 done, 157ac415a511c9ba2a1087d3bfb547f94a8f684ec7e2c9b0c167eaa4264f3dce",
        ),
        (
            "draws 40 3",
            "3 done, 797211e1c0e966f407286c9269e00c39d58a7f99575f48bd52e332a9ae36b397",
        ),
        (
            "calls 1 32 2",
            "0 done, e3b0c44298fc1c149afbf4c8996fb92427ae41e4649b934ca495991b7852b855",
        ),
    ] {
        assert!(rt; line_of_tree(rt.alloc(), text)?.is_some_and(|line| line.as_str() == want));
    }
    for text in [
        "calls 63 1 1",
        "calls-pr 0 65537 1",
        "draws 0 1",
        "draws 4097 1",
        "calls 0 1",
    ] {
        assert!(rt; line_of_tree(rt.alloc(), text)?.is_none());
    }
    Ok(())
}
