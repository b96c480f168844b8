// How a session ends.

/// How a session ended. Frames are counted from its start, and an offset is a byte's place in its whole input.
#[derive(Clone, Copy, Debug, PartialEq, Eq)]
pub enum End {
    /// The input ended between two frames, after so many.
    Read { frames: u64 },
    /// No frame goes on with the byte at this place; `why` is the number of the field that it stands in.
    Bad { offset: u64, why: u8 },
    /// The input ended within a frame, after so many bytes.
    Cut { offset: u64 },
    /// A read failed. The input has failed so often by now.
    ReadFault { count: u64 },
    /// A write failed. The output has failed so often by now.
    WriteFault { count: u64 },
    /// So many frames were answered, as many as one session may have.
    Quota { frames: u64 },
}
