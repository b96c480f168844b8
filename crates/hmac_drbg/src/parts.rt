// Provided data in three parts, which is nowhere joined.
ghost use Rattle.std.specs.Prelude.{◌≡◌, ◌<◌, ◌↔◌, ◌∷◌, ◌++◌, [], ℕ, List, length, IsTrue};
ghost use Rattle.hmac_core.specs.declared.hash.Hash.{Hash};
ghost use Rattle.hmac_core.specs.Hmac.{hmac};
ghost use Rattle.hmac_core.specs.Holds.{HoldsText};

use hmac_core::Mac;
use rbg_bytes::Fixed;

// HMAC of a value, a byte and provided data, under a key that is set up and not used again.
pub fn mac_of_parts(
    mut keyed: Mac,
    value: &[u8],
    mark: u8,
    first: &[u8],
    second: &[u8],
    third: &[u8],
) -> Fixed<64>
    ensures { (hash : Hash) (key : List ℕ) → HoldsText keyed hash key [] →
        result ≡ hmac hash key (value.now ++ mark ∷ [] ++ first.now ++ second.now ++ third.now) }
{
    keyed.update(value);
    keyed.update(&[mark]);
    keyed.update(first);
    keyed.update(second);
    keyed.update(third);
    keyed.finish()
}

// Whether there is a byte in any of three parts.
pub fn is_any(first: &[u8], second: &[u8], third: &[u8]) -> bool
    ensures { IsTrue result ↔ (0 < length (first.now ++ second.now ++ third.now)) }
{
    !(first.is_empty() && second.is_empty() && third.is_empty())
}
