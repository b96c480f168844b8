// The answer to a call.

/// What a call is answered, beside its bytes: code 0 is Done, every other one is a refusal, with two numbers that say why. `len` is
/// the number of bytes, which a refusal has none of.
#[derive(Clone, Copy, Debug, PartialEq, Eq)]
pub struct Reply {
    pub code: u8,
    pub a: u64,
    pub b: u64,
    pub len: u32,
}

/// A row of the table of refusals: whether it stands, and its reply.
#[derive(Clone, Copy, Debug)]
pub struct ReplyRow {
    pub stands: bool,
    pub reply: Reply,
}
