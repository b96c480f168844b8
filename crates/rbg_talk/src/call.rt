// What a line says.
ghost use Rattle.std.specs.Prelude.{◌≡◌, ◌<◌, ◌≤◌, ◌^◌, List, ℕ, [], length, take, IfSome, IfOk, OnOk, MatchResult, option_map, Option, Some, None};
ghost use Rattle.std.specs.Str.{bytes_eq};
ghost use Rattle.std.specs.Str.Lines.{strip_carriage_return};
ghost use Rattle.rbg_talk.specs.Lines.{words_in};
ghost use Rattle.rbg_talk.specs.Calls.{call, call_of, call_on, line_says, or_no_number, may_stand, no_options, with_pr, with_strength, with_string, with_option, with_options, said};
ghost use Rattle.rbg_talk.specs.Words.{number_up_to};
ghost use Rattle.rbg_talk.specs.Parsed.{AreAllowed, IsCountOf, IsServed, asked_of, options_of};

use crate::grammar::{Fault, Number, Operation, Word};
use crate::words::{bytes_written, next_word, number_up_to, operation_named};
use frame_codec::Request;

/// The options of a call. Of a string, which stands at the front of a buffer, its length.
#[derive(Clone, Copy)]
pub struct Options {
    pub pr: bool,
    pub strength: Option<u16>,
    pub string: Option<u16>,
}

// Whether a word is this one.
fn is_word(word: &[u8], text: &str) -> bool
    ensures { result ≡ bytes_eq word.now text.now }
{
    word == text.as_bytes()
}

// The number that a word must write, at most `most`.
fn number(what: Number, most: u32, word: &[u8]) -> Result<u32, Fault>
    ensures value { result ≡ or_no_number what (number_up_to most word.now) }
    ensures bound { IfOk result (λ n. n ≤ most) }
{
    match number_up_to(most, word) {
        Some(number) => Ok(number),
        None => Err(Fault::NoNumber(what)),
    }
}

// Refuses an option that the operation doesn't take, or that stands already.
fn may_stand(operation: Operation, option: Word, stands: bool) -> Result<bool, Fault>
    ensures { result ≡ may_stand operation option stands }
{
    if !operation.takes(option) {
        return Err(Fault::NotTaken(option));
    }
    if stands {
        return Err(Fault::Twice(option));
    }
    Ok(true)
}

impl Options {
    const NONE: Options = Options {
        pr: false,
        strength: None,
        string: None,
    };

    // With prediction resistance.
    fn with_pr(self, operation: Operation) -> Result<Options, Fault>
        requires allowed { AreAllowed operation self }
        ensures read { (buffer : List ℕ) → MatchResult result (λ more. with_pr operation (options_of self buffer) ≡ Ok (options_of more buffer)) (λ why. with_pr operation (options_of self buffer) ≡ Err why) }
        ensures allowed { IfOk result (AreAllowed operation) }
    {
        match may_stand(operation, Word::Pr, self.pr) {
            Ok(_) => Ok(Options { pr: true, ..self }),
            Err(why) => Err(why),
        }
    }

    // With the strength that a word writes.
    fn with_strength(self, operation: Operation, value: &[u8]) -> Result<Options, Fault>
        requires allowed { AreAllowed operation self }
        ensures read { (buffer : List ℕ) → MatchResult result (λ more. with_strength operation (options_of self buffer) value.now ≡ Ok (options_of more buffer)) (λ why. with_strength operation (options_of self buffer) value.now ≡ Err why) }
        ensures allowed { IfOk result (AreAllowed operation) }
    {
        match may_stand(operation, Word::StrengthWord, self.strength.is_some()) {
            Ok(_) => match number(Number::Strength, 65_535, value) {
                Ok(strength) => Ok(Options {
                    strength: Some(strength as u16),
                    ..self
                }),
                Err(why) => Err(why),
            },
            Err(why) => Err(why),
        }
    }

    // With the string that a word writes, whose bytes are put to the front of the buffer.
    fn with_string(
        self,
        operation: Operation,
        value: &[u8],
        buffer: &mut [u8],
    ) -> Result<Options, Fault>
        requires allowed { AreAllowed operation self }
        requires room { length buffer.old ≡ 4096 }
        ensures read { MatchResult result (λ more. with_string operation (options_of self buffer.old) value.now ≡ Ok (options_of more buffer.new)) (λ why. with_string operation (options_of self buffer.old) value.now ≡ Err why) }
        ensures allowed { IfOk result (AreAllowed operation) }
    {
        match may_stand(operation, Word::StringWord, self.string.is_some()) {
            Ok(_) => match bytes_written(value, buffer) {
                Ok(len) => Ok(Options {
                    string: Some(len),
                    ..self
                }),
                Err(why) => Err(why),
            },
            Err(why) => Err(why),
        }
    }

    // With one more option, by its word and the word behind that.
    fn with_option(
        self,
        operation: Operation,
        word: &[u8],
        value: &[u8],
        buffer: &mut [u8],
    ) -> Result<Options, Fault>
        requires allowed { AreAllowed operation self }
        requires room { length buffer.old ≡ 4096 }
        ensures read { MatchResult result (λ more. with_option operation (options_of self buffer.old) word.now value.now ≡ Ok (options_of more buffer.new)) (λ why. with_option operation (options_of self buffer.old) word.now value.now ≡ Err why) }
        ensures allowed { IfOk result (AreAllowed operation) }
    {
        if is_word(word, "pr") {
            return self.with_pr(operation);
        }
        if is_word(word, "strength") {
            return self.with_strength(operation, value);
        }
        if is_word(word, "string") {
            return self.with_string(operation, value, buffer);
        }
        Err(Fault::NoOption)
    }

    // The options that the words of a text give.
    fn read(operation: Operation, text: &[u8], buffer: &mut [u8]) -> Result<Options, Fault>
        requires room { length buffer.old ≡ 4096 }
        ensures read { MatchResult result (λ o. with_options operation no_options (words_in text.now) ≡ Ok (options_of o buffer.new)) (λ why. with_options operation no_options (words_in text.now) ≡ Err why) }
        ensures allowed { IfOk result (AreAllowed operation) }
    {
        let mut found = Options::NONE;
        let mut rest = text;
        'options: loop {
            let (word, behind) = next_word(rest);
            if word.is_empty() {
                return Ok(found);
            }
            let (value, later) = next_word(behind);
            match found.with_option(operation, word, value, buffer) {
                Ok(more) => found = more,
                Err(why) => return Err(why),
            }
            rest = if is_word(word, "pr") { behind } else { later };
        }
    }

    // The call with these options, as a request with the id 0. Its string stands at the front of the buffer.
    fn call(self, operation: Operation, node: u8, count: u32) -> Request
        requires allowed { AreAllowed operation self }
        requires count { IsCountOf operation count }
        ensures asked { (buffer : List ℕ) → length buffer ≡ 4096 → asked_of result buffer ≡ call operation node count (options_of self buffer) }
        ensures served { IsServed result }
    {
        Request {
            op: operation.op(),
            flags: u8::from(self.pr),
            node,
            id: 0,
            count,
            strength: self.strength.unwrap_or(0),
            len: self.string.unwrap_or(0),
        }
    }
}

// The call of an operation by the words behind its name.
fn call_of(operation: Operation, text: &[u8], buffer: &mut [u8]) -> Result<Request, Fault>
    requires room { length buffer.old ≡ 4096 }
    ensures read { MatchResult result (λ r. call_of operation (words_in text.now) ≡ Ok (asked_of r buffer.new)) (λ why. call_of operation (words_in text.now) ≡ Err why) }
    ensures served { IfOk result IsServed }
{
    let (word, behind) = next_word(text);
    match number(operation.object(), 255, word) {
        Ok(node) => call_on(operation, node as u8, behind, buffer),
        Err(why) => Err(why),
    }
}

// The same, by the words behind its node.
fn call_on(operation: Operation, node: u8, text: &[u8], buffer: &mut [u8]) -> Result<Request, Fault>
    requires room { length buffer.old ≡ 4096 }
    ensures read { MatchResult result (λ r. call_on operation node (words_in text.now) ≡ Ok (asked_of r buffer.new)) (λ why. call_on operation node (words_in text.now) ≡ Err why) }
    ensures served { IfOk result IsServed }
{
    if !operation.is_counted() {
        return match Options::read(operation, text, buffer) {
            Ok(options) => Ok(options.call(operation, node, 0)),
            Err(why) => Err(why),
        };
    }
    let (word, behind) = next_word(text);
    match number(Number::Count, u32::MAX, word) {
        Ok(count) => match Options::read(operation, behind, buffer) {
            Ok(options) => Ok(options.call(operation, node, count)),
            Err(why) => Err(why),
        },
        Err(why) => Err(why),
    }
}

// A line without the carriage return at its end.
fn uncarried(line: &[u8]) -> &[u8]
    ensures { result.now ≡ strip_carriage_return line.now }
{
    let len = line.len();
    if 0 < len {
        if line[len - 1] == b'\r' {
            return &line[..len - 1];
        }
    }
    line
}

/// What a line of at most 9,000 bytes says: nothing, or a call, as a request with the id 0 whose string stands at the front of
/// the buffer.
pub fn line_says(line: &[u8], buffer: &mut [u8]) -> Result<Option<Request>, Fault>
    requires line { length line.now ≤ 9000 }
    requires room { length buffer.old ≡ 4096 }
    ensures read { MatchResult result (λ said. line_says line.now ≡ Ok (option_map (λ r. asked_of r buffer.new) said)) (λ why. line_says line.now ≡ Err why) }
    ensures served { IfOk result (λ said. IfSome said IsServed) }
{
    let (word, behind) = next_word(uncarried(line));
    if word.is_empty() {
        return Ok(None);
    }
    if word[0] == b'#' {
        return Ok(None);
    }
    match operation_named(word) {
        Some(operation) => match call_of(operation, behind, buffer) {
            Ok(request) => Ok(Some(request)),
            Err(why) => Err(why),
        },
        None => Err(Fault::NoOperation),
    }
}
