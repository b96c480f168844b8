// The words of a line, and what single words mean.
ghost use Rattle.std.specs.Prelude.{◌≡◌, ◌<◌, ◌≤◌, ◌⊎◌, [], length, take, drop, slice_index, true, false, All, MatchResult, IfOk};
ghost use Rattle.std.specs.Str.{all_ascii_digits};
ghost use Rattle.rbg_talk.specs.Lines.{is_blank, words_in, word_before};
ghost use Rattle.rbg_talk.specs.Words.{operation_named, number_up_to, bytes_written};

use crate::grammar::{Fault, Operation};

// A space or a tab.
fn is_blank(byte: u8) -> bool
    ensures { result ≡ is_blank byte }
{
    byte == b' ' || byte == b'\t'
}

// How many spaces and tabs a text begins with.
fn blank_len(text: &[u8]) -> usize
    ensures bound { result ≤ length text.now }
    ensures words { words_in (drop result text.now) ≡ words_in text.now }
    ensures next { is_blank (slice_index (drop result text.now) 0) ≡ false }
{
    for (i, byte) in text.iter().enumerate() {
        if !is_blank(*byte) {
            return i;
        }
    }
    text.len()
}

// How many bytes a text begins with that are no space or tab.
fn word_len(text: &[u8]) -> usize
    ensures bound { result ≤ length text.now }
    ensures word { All (λ byte. is_blank byte ≡ false) (take result text.now) }
    ensures next { (drop result text.now ≡ []) ⊎ (is_blank (slice_index (drop result text.now) 0) ≡ true) }
{
    for (i, byte) in text.iter().enumerate() {
        if is_blank(*byte) {
            return i;
        }
    }
    text.len()
}

/// The first word of a text, and what stands behind it. Where there is no word, an empty one is given, and nothing is behind.
pub fn next_word(text: &[u8]) -> (&[u8], &[u8])
    ensures words { words_in text.now ≡ word_before result.0.now (words_in result.1.now) }
    ensures none { result.0.now ≡ [] → words_in result.1.now ≡ [] }
    ensures shorter { 0 < length result.0.now → length result.1.now < length text.now }
    ensures bound { length result.1.now ≤ length text.now }
{
    let text = &text[blank_len(text)..];
    text.split_at(word_len(text))
}

/// The operation that a word names.
pub fn operation_named(word: &[u8]) -> Option<Operation>
    ensures { result ≡ operation_named word.now }
{
    if word == b"instantiate".as_slice() {
        Some(Operation::Instantiate)
    } else if word == b"generate".as_slice() {
        Some(Operation::Generate)
    } else if word == b"reseed".as_slice() {
        Some(Operation::Reseed)
    } else if word == b"uninstantiate".as_slice() {
        Some(Operation::Uninstantiate)
    } else if word == b"start".as_slice() {
        Some(Operation::Start)
    } else if word == b"status".as_slice() {
        Some(Operation::Status)
    } else {
        None
    }
}

// Whether each byte is a decimal digit.
fn are_digits(word: &[u8]) -> bool
    ensures { result ≡ all_ascii_digits word.now }
{
    for byte in word {
        if !byte.is_ascii_digit() {
            return false;
        }
    }
    true
}

/// The number that a word writes in decimal digits, where it is at most `most`.
pub fn number_up_to(most: u32, word: &[u8]) -> Option<u32>
    ensures { result ≡ number_up_to most word.now }
{
    if !are_digits(word) {
        return None;
    }
    let Ok(text) = str::from_utf8(word) else {
        return None;
    };
    let Ok(number) = text.parse::<u32>() else {
        return None;
    };
    if most < number {
        return None;
    }
    Some(number)
}

/// Puts the bytes that a word writes in hexadecimal to the front of `out`, and says how many: 1 to 4,096.
pub fn bytes_written(word: &[u8], out: &mut [u8]) -> Result<u16, Fault>
    requires { length out.old ≡ 4096 }
    ensures read { MatchResult result (λ n. bytes_written word.now ≡ Ok (take n out.new)) (λ why. bytes_written word.now ≡ Err why) }
    ensures bound { IfOk result (λ n. n ≤ 4096) }
{
    if word.is_empty() {
        return Err(Fault::NoHex);
    }
    if 8192 < word.len() {
        return Err(Fault::LongString);
    }
    let len = word.len() / 2;
    match hex::decode_to_slice(word, &mut out[..len]) {
        Ok(()) => Ok(len as u16),
        Err(_) => Err(Fault::NoHex),
    }
}
