// What the words ask of a tree, whose plan is read from standard input.
ghost use Rattle.std.specs.Prelude.{◌≡◌, ◌∷◌, [], ℕ, Bool, map, string_bytes, IfSome, IfNone, MatchOption};
ghost use Rattle.rbg_bench.specs.TreeJobs.{AsksTree, IsServed, calls_name};
ghost use Rattle.rbg_bench.specs.declared.tree_job.TreeJob.{TreeJob};

use crate::words::number;

// The work on a tree, and how many times it is done.
#[derive(Clone, Copy)]
pub enum TreeJob {
    // Generates of so many bytes on a node, with prediction resistance or without it.
    Calls {
        node: u16,
        bytes: u32,
        pr: bool,
        times: u32,
    },
    // Draws of so many bytes on source 0.
    Draws {
        bytes: usize,
        times: u32,
    },
}

// Whether a word asks for calls with prediction resistance, or without it.
fn calls_named(word: &str) -> Option<bool>
    ensures { MatchOption result ((pr : Bool) → word.now ≡ calls_name pr → ⊥) (λ pr. word.now ≡ calls_name pr) }
{
    match word {
        "calls" => Some(false),
        "calls-pr" => Some(true),
        _ => None,
    }
}

// The calls that four words ask for: node 0 to 62, up to 65,536 bytes, 1 to 1,000,000 times.
fn calls(name: &str, node: &str, bytes: &str, times: &str) -> Option<TreeJob>
    ensures asked { IfSome result (λ job. AsksTree (name.now ∷ node.now ∷ bytes.now ∷ times.now ∷ []) job × IsServed job) }
    ensures refused { IfNone result ((n b : ℕ) (pr : Bool) (t : ℕ) →
        AsksTree (name.now ∷ node.now ∷ bytes.now ∷ times.now ∷ []) (TreeJob.Calls n b pr t) → IsServed (TreeJob.Calls n b pr t) → ⊥) }
{
    let pr = calls_named(name)?;
    let node = number(node, 0, 62)?;
    let bytes = number(bytes, 0, 65_536)?;
    let times = number(times, 1, 1_000_000)?;
    Some(TreeJob::Calls {
        node: node as u16,
        bytes: bytes as u32,
        pr,
        times: times as u32,
    })
}

// The draws that three words ask for: 1 to 4,096 bytes, 1 to 1,000,000 times.
fn draws(name: &str, bytes: &str, times: &str) -> Option<TreeJob>
    ensures asked { IfSome result (λ job. AsksTree (name.now ∷ bytes.now ∷ times.now ∷ []) job × IsServed job) }
    ensures refused { IfNone result ((b t : ℕ) →
        AsksTree (name.now ∷ bytes.now ∷ times.now ∷ []) (TreeJob.Draws b t) → IsServed (TreeJob.Draws b t) → ⊥) }
{
    if name != "draws" {
        return None;
    }
    let bytes = number(bytes, 1, 4_096)?;
    let times = number(times, 1, 1_000_000)?;
    Some(TreeJob::Draws {
        bytes: bytes as usize,
        times: times as u32,
    })
}

// The work on a tree that the words ask for, where they ask for some that is served.
pub fn read_tree_job(words: &[String]) -> Option<TreeJob>
    ensures asked { IfSome result (λ job. AsksTree (map string_bytes words.now) job × IsServed job) }
    ensures refused { IfNone result ((job : TreeJob) → AsksTree (map string_bytes words.now) job → IsServed job → ⊥) }
{
    match words {
        [name, bytes, times] => draws(name.as_str(), bytes.as_str(), times.as_str()),
        [name, node, bytes, times] => calls(
            name.as_str(),
            node.as_str(),
            bytes.as_str(),
            times.as_str(),
        ),
        _ => None,
    }
}
