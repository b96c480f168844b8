// The calls of a load on the tree of one caller.
ghost use Rattle.std.specs.Prelude.{◌≡◌, ◌≤◌, ◌+◌, ◌^◌, ℕ, List, length};
ghost use Rattle.tree_rules.specs.History.{Entry, Opening};
ghost use Rattle.tree_rules.specs.Openings.{IsHistory};
ghost use Rattle.tree_core.specs.Made.{samples_in};
ghost use Rattle.tree_core.specs.Solo.{StandAfter};
ghost use Rattle.tree_load.specs.Load.{stated_calls};
ghost use Rattle.tree_load.specs.Made.{AreMade};

use crate::stated::StatedCalls;
use sample_source::Samples;
use tree_core::SoloTree;
use tree_rules::histories_are_right_as_a_whole;

/// How many calls were Done, and how many were refused.
#[derive(Clone, Copy, Debug)]
pub struct CallsMade {
    pub done: u64,
    pub refused: u64,
}

/// Makes the first calls that a seed states on the nodes of the tree, in order and without strings, each one also after others were
/// refused. No memory is taken: `buffer` takes the bytes of the replies, and has 65,536 bytes or more.
pub fn make_stated_calls<S: Samples>(
    tree: &mut SoloTree<S>,
    count: u64,
    seed: u64,
    buffer: &mut [u8],
) -> CallsMade
    requires room { 65536 ≤ length buffer.old }
    requires few { tree.old.calls + count ≤ 2 ^ 40 }
    ensures made { (f : Opening) (o h : List Entry) → IsHistory f o h → f.plan ≡ tree.old.plan → StandAfter S.told S.faults f o h tree.old.nodes tree.old.sources →
        AreMade S.told S.faults S.reads f o h (samples_in tree.old.sources) (stated_calls (length tree.old.plan.nodes) seed count) result.done result.refused tree.new.nodes tree.new.sources }
    ensures all { result.done + result.refused ≡ count }
    ensures plan { tree.new.plan ≡ tree.old.plan }
    ensures calls { tree.new.calls ≡ tree.old.calls + count }
{
    histories_are_right_as_a_whole();
    let mut stated = StatedCalls::of(tree.plan().nodes(), seed);
    let mut done = 0;
    let mut refused = 0;
    'calls: for _i in 0..count {
        let call = stated.next_call();
        let reply = tree.call(&call, &[], buffer);
        if reply.code == 0 {
            done += 1;
        } else {
            refused += 1;
        }
    }
    CallsMade { done, refused }
}
