// How the program ends: a number for the process, and a line on standard error.
ghost use Rattle.std.specs.Prelude.{◌≡◌, ◌≤◌, ◌+◌, ◌++◌, length, decimal};
ghost use Rattle.rbg_bytes.specs.Streams.{HasCause, TakesAll};
ghost use Rattle.rbg_talk.specs.Statuses.{number_of, line_of, fault_text, number_text, option_text};

use crate::grammar::{Fault, Number, Word};
use rbg_bytes::{ByteSink, Failed, Line};

/// The commands, as the line on standard error names them.
const USAGE: &str = "usage: rbg_talk ask, show, bytes, --help\n";

/// How the program ended.
#[derive(Clone, Copy, Debug, PartialEq, Eq)]
pub enum Status {
    /// All of the input was served, and no reply in it was a refusal; or how the program is used was printed.
    Done,
    /// The words are no command.
    Usage,
    /// The line with this number, counted from 1, is the first that is faulty.
    Line { number: u64, fault: Fault },
    /// No reply frame goes on with the byte at this place of the input; `why` is the number of the field that it stands in.
    Malformed { offset: u64, why: u8 },
    /// The input ended within a reply frame, after so many bytes.
    Cut { offset: u64 },
    /// The input failed, so often by now.
    ReadFault { count: u64 },
    /// The output failed, so often by now.
    WriteFault { count: u64 },
    /// All of the input was served, and so many replies in it were refusals or Malformed.
    Refused { refusals: u64 },
    /// No memory was left.
    Memory,
    /// So many bytes were read, and more may follow.
    Quota { bytes: u64 },
}

impl Number {
    // What must stand in its place, at most 60 bytes.
    fn text(self) -> &'static str
        ensures text { result.now ≡ number_text self }
        ensures len { length result.now ≤ 60 }
    {
        match self {
            Number::Node => "NODE must be a number from 0 to 255",
            Number::Source => "SOURCE must be a number from 0 to 255",
            Number::Count => "COUNT must be a number from 0 to 4294967295",
            Number::Strength => "the word behind strength must be a number from 0 to 65535",
        }
    }
}

impl Word {
    // The word, at most 8 bytes.
    fn text(self) -> &'static str
        ensures text { result.now ≡ option_text self }
        ensures len { length result.now ≤ 8 }
    {
        match self {
            Word::Pr => "pr",
            Word::StrengthWord => "strength",
            Word::StringWord => "string",
        }
    }
}

impl Fault {
    // Adds what is wrong, at most 60 bytes.
    fn add_to(self, line: &mut Line)
        requires { length line.old + 60 ≤ 512 }
        ensures value { line.new ≡ line.old ++ fault_text self }
        ensures len { length line.new ≤ length line.old + 60 }
    {
        match self {
            Fault::LongLine => line.text("more than 9000 bytes"),
            Fault::NoOperation => line.text("no such operation"),
            Fault::NoNumber(what) => line.text(what.text()),
            Fault::NoHex => line.text("the word behind string must be pairs of hexadecimal digits"),
            Fault::LongString => line.text("the string must have at most 4096 bytes"),
            Fault::NoOption => line.text("a word that is no option"),
            Fault::NotTaken(option) => {
                line.text("this operation takes no ");
                line.text(option.text());
            }
            Fault::Twice(option) => {
                line.text(option.text());
                line.text(" stands twice");
            }
        }
    }
}

// A text.
fn plain(text: &str) -> Line
    requires { length text.now ≤ 512 }
    ensures { result ≡ text.now }
{
    let mut line = Line::new();
    line.text(text);
    line
}

// A number between two texts.
fn numbered(before: &str, number: u64, after: &str) -> Line
    requires before { length before.now ≤ 200 }
    requires after { length after.now ≤ 200 }
    ensures { result ≡ before.now ++ decimal number ++ after.now }
{
    let mut line = Line::new();
    line.text(before);
    line.number(number);
    line.text(after);
    line
}

// Where a reply is malformed, and why.
fn malformed(offset: u64, why: u8) -> Line
    ensures { result ≡ line_of (Status.Malformed offset why) }
{
    let mut line = Line::new();
    line.text("malformed reply at ");
    line.number(offset);
    line.text(", why ");
    line.number(u64::from(why));
    line.text("\n");
    line
}

// Which line is faulty, and how.
fn faulty(number: u64, fault: Fault) -> Line
    ensures { result ≡ line_of (Status.Line number fault) }
{
    let mut line = Line::new();
    line.text("line ");
    line.number(number);
    line.text(": ");
    fault.add_to(&mut line);
    line.text("\n");
    line
}

impl Status {
    /// The status with which the process ends, 0 where the work was done.
    pub fn number(&self) -> u8
        ensures { result ≡ number_of self.now }
    {
        match self {
            Status::Done => 0,
            Status::Usage => 1,
            Status::Line { .. } => 2,
            Status::Malformed { .. } | Status::Cut { .. } => 3,
            Status::ReadFault { .. } => 4,
            Status::WriteFault { .. } => 5,
            Status::Refused { .. } => 6,
            Status::Memory => 7,
            Status::Quota { .. } => 9,
        }
    }

    /// Writes the line that says how the program ended, in one piece; none where the work was done. Refuses only where the
    /// write fails.
    pub fn line<O: ByteSink>(&self, output: &mut O) -> Result<(), Failed>
        ensures bytes { TakesAll (O.out output.old) (O.out output.new) result (line_of self.now) }
        ensures cause { HasCause (O.faults output.old) (O.faults output.new) result }
    {
        if let Status::Done = self {
            return Ok(());
        }
        let line = self.text();
        output.write_all(line.as_bytes())
    }

    // The line, with its line feed.
    fn text(&self) -> Line
        ensures { result ≡ line_of self.now }
    {
        match *self {
            Status::Done => Line::new(),
            Status::Usage => plain(USAGE),
            Status::Line { number, fault } => faulty(number, fault),
            Status::Malformed { offset, why } => malformed(offset, why),
            Status::Cut { offset } => numbered("input cut at ", offset, "\n"),
            Status::ReadFault { count } => numbered("read fault ", count, "\n"),
            Status::WriteFault { count } => numbered("write fault ", count, "\n"),
            Status::Refused { refusals } => numbered("refusals ", refusals, "\n"),
            Status::Memory => plain("out of memory\n"),
            Status::Quota { bytes } => numbered("quota of ", bytes, " bytes\n"),
        }
    }
}
