// The heads of frames.

/// The head of a request frame.
#[derive(Clone, Copy, Debug, PartialEq, Eq)]
pub struct Request {
    /// What is asked: 1 Instantiate, 2 Generate, 3 Reseed, 4 Uninstantiate, 5 Start, 6 Status.
    pub op: u8,
    /// Bit 0 asks for prediction resistance.
    pub flags: u8,
    /// The node that is asked, or the source.
    pub node: u8,
    /// The caller's own number, which the reply repeats.
    pub id: u32,
    /// How many bytes are asked.
    pub count: u32,
    /// The security strength that is asked, in bits.
    pub strength: u16,
    /// How many bytes the string behind the head has.
    pub len: u16,
}

/// The head of a reply frame.
#[derive(Clone, Copy, Debug, PartialEq, Eq)]
pub struct ReplyHead {
    /// 0 Done, 1 to 8 and 10 to 14 a refusal, 255 Malformed.
    pub code: u8,
    /// The op of the request.
    pub op: u8,
    /// The node of the request.
    pub node: u8,
    /// The id of the request.
    pub id: u32,
    /// The first detail of a refusal.
    pub a: u64,
    /// The second detail of a refusal.
    pub b: u64,
    /// How many bytes the payload behind the head has.
    pub len: u32,
}
