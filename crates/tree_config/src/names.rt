// The names of kinds, as a configuration spells them and as they are printed.
ghost use Rattle.std.specs.Prelude.{◌≡◌, ◌≤◌, length};
ghost use Rattle.tree_config.specs.Names.{node_kind_text, drbg_text, cond_text};

use crate::plan::NodeKind;
use rbg_bytes::{Cond, Kind};

impl NodeKind {
    /// The kind's name, at most 12 bytes.
    pub fn name(self) -> &'static str
        ensures text { result.now ≡ node_kind_text self }
        ensures len { length result.now ≤ 12 }
    {
        match self {
            NodeKind::Rbg1 => "rbg1",
            NodeKind::Rbg2 => "rbg2",
            NodeKind::Rbg3Xor => "rbg3-xor",
            NodeKind::Rbg3Rs => "rbg3-rs",
            NodeKind::Child => "child",
        }
    }
}

/// The name of a kind of DRBG, at most 12 bytes.
pub fn drbg_name(kind: Kind) -> &'static str
    ensures text { result.now ≡ drbg_text kind }
    ensures len { length result.now ≤ 12 }
{
    match kind {
        Kind::HmacSha256 => "hmac-sha-256",
        Kind::HmacSha384 => "hmac-sha-384",
        Kind::HmacSha512 => "hmac-sha-512",
        Kind::CtrAes128 => "ctr-aes-128",
        Kind::CtrAes192 => "ctr-aes-192",
        Kind::CtrAes256 => "ctr-aes-256",
    }
}

/// The name of a conditioning component, at most 12 bytes.
pub fn cond_name(cond: Cond) -> &'static str
    ensures text { result.now ≡ cond_text cond }
    ensures len { length result.now ≤ 12 }
{
    match cond {
        Cond::HmacSha256 => "hmac-sha-256",
        Cond::DfAes256 => "df-aes-256",
    }
}
