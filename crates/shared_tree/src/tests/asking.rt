// Calls, with the first bytes of their answers.
ghost use Rattle.std.specs.Prelude.{◌≡◌, IfOk};
ghost use Rattle.shared_tree.specs.Passes.{IsPassOf};

use crate::{Busy, SharedTree, TreePass};
use sample_source::Samples;
use std::sync::Wait;
use tree_core::{Call, Reply};

// What a call was answered: its code, and the first bytes of its reply.
#[derive(Clone, Copy)]
pub(crate) struct Said {
    pub(crate) code: u8,
    pub(crate) bytes: [u8; 32],
}

impl Said {
    // Whether it is Done, with these bytes in front.
    pub(crate) fn gives(&self, want: &[u8; 32]) -> bool {
        self.code == 0 && self.bytes == *want
    }
}

// So many bytes of a node.
pub(crate) fn generate(node: u16, pr: bool) -> Call {
    Call::Generate {
        node,
        count: 32,
        strength: 0,
        pr,
    }
}

pub(crate) fn heard(reply: Reply, out: &[u8; 65536]) -> Said {
    let mut bytes = [0; 32];
    bytes.copy_from_slice(&out[..32]);
    Said {
        code: reply.code,
        bytes,
    }
}

// Makes a call without a string. There is an answer but where the caller has made 2^40 calls.
pub(crate) fn try_ask<S: Samples>(
    tree: &SharedTree<S>,
    pass: &mut TreePass<S>,
    call: Call,
) -> Option<Result<Said, Busy>>
    requires pass { IsPassOf tree.now pass.old }
    ensures pass { IsPassOf tree.entry.now pass.new }
    ensures opening { pass.new.view.opening ≡ pass.old.view.opening }
{
    if pass.calls() >= 1 << 40 {
        return None;
    }
    let mut out = [0u8; 65536];
    match tree.try_call(pass, &call, &[], &mut out) {
        Ok(reply) => Some(Ok(heard(reply, &out))),
        Err(busy) => Some(Err(busy)),
    }
}

// The same, with a string, and it waits.
pub(crate) fn ask<S: Samples, R: Wait>(
    rt: &R,
    tree: &SharedTree<S>,
    pass: &mut TreePass<S>,
    call: Call,
    string: &str,
) -> Option<Said>
    requires pass { IsPassOf tree.now pass.old }
    ensures pass { IsPassOf tree.entry.now pass.new }
    ensures opening { pass.new.view.opening ≡ pass.old.view.opening }
{
    if pass.calls() >= 1 << 40 {
        return None;
    }
    let mut out = [0u8; 65536];
    let reply = tree.call(rt, pass, &call, string.as_bytes(), &mut out);
    Some(heard(reply, &out))
}
