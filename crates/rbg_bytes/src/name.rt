// A short text, kept in itself.
ghost use Rattle.std.specs.Prelude.{◌≡◌, ◌≤◌, length};

use std::marker::Model;

// The longest name in bytes.
const MAX: usize = 255;

/// A text of at most 255 bytes, as the name of a file, which takes no memory of its own. Contracts see it as the list of its
/// bytes.
#[derive(Drop)]
pub struct Name {
    bytes: [u8; MAX],
    len: usize,
}

impl Model for Name {
    ghost use Rattle.std.specs.Prelude.{◌≤◌, List, ℕ, take, IsUtf8};

    ghost Value = { List ℕ };

    ghost view = { λ n. take n.len n.bytes };

    ghost invariant = { λ n. (n.len ≤ 255) × IsUtf8 (take n.len n.bytes) };
}

impl Name {
    /// The name with this text, at most 255 bytes.
    pub fn of(text: &str) -> Name
        requires { length text.now ≤ 255 }
        ensures { result ≡ text.now }
    {
        let mut bytes = [0u8; MAX];
        bytes[..text.len()].copy_from_slice(text.as_bytes());
        Name {
            bytes,
            len: text.len(),
        }
    }

    /// The text, at most 255 bytes.
    pub fn as_str(&self) -> &str
        ensures bytes { result.now ≡ self.now }
        ensures bound { length self.now ≤ 255 }
    {
        str::from_utf8(&self.bytes[..self.len]).unwrap()
    }
}
