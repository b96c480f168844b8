// The lengths of a key.
ghost use Rattle.std.specs.Prelude.{◌≡◌, ◌≤◌, ◌+◌};
ghost use Rattle.df_core.specs.Df.{blocks_for};
ghost use Rattle.df_core.specs.KeyLen.{key_bytes};

/// The length of an AES key: 16, 24 or 32 bytes.
#[derive(Clone, Copy, Debug, PartialEq, Eq)]
pub enum KeyLen {
    K16,
    K24,
    K32,
}

impl KeyLen {
    /// The number of bytes: 16, 24 or 32.
    pub fn bytes(self) -> usize
        ensures { result ≡ key_bytes self }
    {
        match self {
            KeyLen::K16 => 16,
            KeyLen::K24 => 24,
            KeyLen::K32 => 32,
        }
    }

    // The number of passes of BCC whose results hold a key and a block.
    pub(crate) fn passes(self) -> usize
        ensures passes { result ≡ blocks_for (key_bytes self + 16) }
        ensures few { result ≤ 3 }
    {
        match self {
            KeyLen::K16 => 2,
            KeyLen::K24 | KeyLen::K32 => 3,
        }
    }
}
