// The calls of a tree.

/// A call of the tree. It names a node or a source by its number; strengths are in bits, `count` is in bytes, and `pr` asks
/// prediction resistance (SP 800-90A Rev. 1, 9.3).
#[derive(Clone, Copy, Debug, PartialEq, Eq)]
pub enum Call {
    /// Instantiates a node, whose DRBG must have at least this strength. The string is its personalization string.
    Instantiate {
        node: u16,
        strength: u16,
    },
    /// Asks a node for bytes: at most 65,536, or 4,096 of an RBG3. The string is its additional input.
    Generate {
        node: u16,
        count: u32,
        strength: u16,
        pr: bool,
    },
    /// Reseeds a node. The string is its additional input.
    Reseed {
        node: u16,
        pr: bool,
    },
    /// Uninstantiates a node, and no other.
    Uninstantiate {
        node: u16,
    },
    /// Starts a source: its tests are fresh, and the samples of its start-up tests are read and thrown away (SP 800-90B 4.3).
    Start {
        source: u16,
    },
    /// Asks for a node's counts.
    Status {
        node: u16,
    },
}
