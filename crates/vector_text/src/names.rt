// The names of mechanisms and fields, and numbers.
ghost use Rattle.std.specs.Prelude.{◌≡◌};
ghost use Rattle.std.specs.Str.{all_ascii_digits};
ghost use Rattle.vector_text.specs.Names.{cipher_named, count_of, field_named, hash_named, mechanism_named};

use crate::case::{Family, Mech};
use crate::shape::Field;
use ctr_drbg::Mode;
use df_core::KeyLen;
use hmac_core::Hash;

// The hash function with a name.
fn hash_named(name: &[u8]) -> Option<Hash>
    ensures { result ≡ hash_named name.now }
{
    if name == b"SHA-224".as_slice() {
        Some(Hash::Sha224)
    } else if name == b"SHA-256".as_slice() {
        Some(Hash::Sha256)
    } else if name == b"SHA-384".as_slice() {
        Some(Hash::Sha384)
    } else if name == b"SHA-512".as_slice() {
        Some(Hash::Sha512)
    } else if name == b"SHA-512/224".as_slice() {
        Some(Hash::Sha512_224)
    } else if name == b"SHA-512/256".as_slice() {
        Some(Hash::Sha512_256)
    } else {
        None
    }
}

// The AES key and the mode with a name.
fn cipher_named(name: &[u8]) -> Option<(KeyLen, Mode)>
    ensures { result ≡ cipher_named name.now }
{
    if name == b"AES-128 use df".as_slice() {
        Some((KeyLen::K16, Mode::UseDf))
    } else if name == b"AES-192 use df".as_slice() {
        Some((KeyLen::K24, Mode::UseDf))
    } else if name == b"AES-256 use df".as_slice() {
        Some((KeyLen::K32, Mode::UseDf))
    } else if name == b"AES-128 no df".as_slice() {
        Some((KeyLen::K16, Mode::NoDf))
    } else if name == b"AES-192 no df".as_slice() {
        Some((KeyLen::K24, Mode::NoDf))
    } else if name == b"AES-256 no df".as_slice() {
        Some((KeyLen::K32, Mode::NoDf))
    } else {
        None
    }
}

/// The mechanism of a family with a name.
pub fn mechanism_named(family: Family, name: &[u8]) -> Option<Mech>
    ensures { result ≡ mechanism_named family name.now }
{
    match family {
        Family::Hmac => match hash_named(name) {
            Some(hash) => Some(Mech::Hmac(hash)),
            None => None,
        },
        Family::Ctr => match cipher_named(name) {
            Some((keylen, mode)) => Some(Mech::Ctr(keylen, mode)),
            None => None,
        },
    }
}

/// The field with a name.
pub fn field_named(name: &[u8]) -> Option<Field>
    ensures { result ≡ field_named name.now }
{
    if name == b"EntropyInput".as_slice() {
        Some(Field::EntropyInput)
    } else if name == b"Nonce".as_slice() {
        Some(Field::Nonce)
    } else if name == b"PersonalizationString".as_slice() {
        Some(Field::PersonalizationString)
    } else if name == b"EntropyInputReseed".as_slice() {
        Some(Field::EntropyInputReseed)
    } else if name == b"AdditionalInputReseed".as_slice() {
        Some(Field::AdditionalInputReseed)
    } else if name == b"AdditionalInput".as_slice() {
        Some(Field::AdditionalInput)
    } else if name == b"EntropyInputPR".as_slice() {
        Some(Field::EntropyInputPr)
    } else if name == b"ReturnedBits".as_slice() {
        Some(Field::ReturnedBits)
    } else {
        None
    }
}

// Whether each byte is a decimal digit.
fn are_digits(word: &[u8]) -> bool
    ensures { result ≡ all_ascii_digits word.now }
{
    for byte in word {
        if !byte.is_ascii_digit() {
            return false;
        }
    }
    true
}

/// The number that decimal digits write, where it is below 2^64. Zeros may lead it.
pub fn count_of(word: &[u8]) -> Option<u64>
    ensures { result ≡ count_of word.now }
{
    if !are_digits(word) {
        return None;
    }
    let Ok(text) = str::from_utf8(word) else {
        return None;
    };
    let Ok(number) = text.parse::<u64>() else {
        return None;
    };
    Some(number)
}
