// Why a tree is not opened.

/// Why a tree was not opened: the seed of this node, the least such one, has `have` bytes where an instantiation takes `need`; or want
/// of memory.
#[derive(Clone, Copy, Debug, PartialEq, Eq)]
pub enum OpenRefusal {
    SeedShort { node: u16, have: u64, need: u64 },
    OutOfMemory,
}
