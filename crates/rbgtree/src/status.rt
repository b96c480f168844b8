// How the program ends: a number for the process, and a line on standard error.
ghost use Rattle.std.specs.Prelude.{◌≡◌};
ghost use Rattle.rbg_bytes.specs.Streams.{HasCause, TakesAll};
ghost use Rattle.rbgtree.specs.Statuses.{number_of, line_of, status_of};

use crate::lines::{config_fault, malformed, numbered, plain, seed_short, text_fault};
use rbg_bytes::{ByteSink, Failed, Line};
use session_core::End;
use tree_config::ConfigFault;

/// The commands, as the line on standard error names them.
const USAGE: &str =
    "usage: rbgtree seed FILE, answer CONFIG, check CONFIG, replay hmac FILE, replay ctr FILE, load CONFIG N SEED, load CONFIG N SEED WORKERS, serve CONFIG ADDR WORKERS CONNS\n";

/// How the program ended.
#[derive(Clone, Copy, Debug, PartialEq, Eq)]
pub enum Status {
    /// The work was done: the input was read to its end and each frame of it answered, each source was started, or each call of a load
    /// was made.
    Done,
    /// The words are no command that is served.
    Usage,
    /// The configuration has this fault.
    Config(ConfigFault),
    /// No frame goes on with the byte at this place of the input; `why` is the number of the field that it stands in.
    Malformed { offset: u64, why: u8 },
    /// The input ended within a frame, after so many bytes.
    Cut { offset: u64 },
    /// The text of a replay has a fault at this line, or a case there has bad lengths (7).
    Text { line: u64, why: u8 },
    /// The input failed, so often by now.
    ReadFault { count: u64 },
    /// The output failed, so often by now.
    WriteFault { count: u64 },
    /// A file could not be read, or samples could not be opened; the world has failed so often by now.
    OpenFault { count: u64 },
    /// No memory was left.
    Memory,
    /// So many cases of a text that was replayed differ.
    Differs { differed: u64 },
    /// So many frames were answered, as many as one session may have.
    Quota { frames: u64 },
    /// The seed file of this node has fewer bytes than it needs.
    SeedShort { node: u16, have: u64, need: u64 },
    /// The start of this source was refused, and of none before it.
    SourceRefused { source: u8 },
}

impl Status {
    /// The status with which the process ends, 0 where the work was done.
    pub fn number(&self) -> u8
        ensures { result ≡ number_of self.now }
    {
        match self {
            Status::Done => 0,
            Status::Usage => 1,
            Status::Config(_) => 2,
            Status::Malformed { .. } | Status::Cut { .. } | Status::Text { .. } => 3,
            Status::ReadFault { .. } => 4,
            Status::WriteFault { .. } => 5,
            Status::OpenFault { .. } => 6,
            Status::Memory => 7,
            Status::Differs { .. } => 8,
            Status::Quota { .. } => 9,
            Status::SeedShort { .. } => 10,
            Status::SourceRefused { .. } => 11,
        }
    }

    /// Writes the line that says how the program ended, in one piece; none where the work was done. Refuses only where the
    /// write fails.
    pub fn line<O: ByteSink>(&self, output: &mut O) -> Result<(), Failed>
        ensures bytes { TakesAll (O.out output.old) (O.out output.new) result (line_of self.now) }
        ensures cause { HasCause (O.faults output.old) (O.faults output.new) result }
    {
        if let Status::Done = self {
            return Ok(());
        }
        let line = self.text();
        output.write_all(line.as_bytes())
    }

    // The line, with its line feed.
    fn text(&self) -> Line
        ensures { result ≡ line_of self.now }
    {
        match *self {
            Status::Done => Line::new(),
            Status::Usage => plain(USAGE),
            Status::Config(fault) => config_fault(fault),
            Status::Malformed { offset, why } => malformed(offset, why),
            Status::Cut { offset } => numbered("input cut at ", offset, "\n"),
            Status::Text { line, why } => text_fault(line, why),
            Status::ReadFault { count } => numbered("read fault ", count, "\n"),
            Status::WriteFault { count } => numbered("write fault ", count, "\n"),
            Status::OpenFault { count } => numbered("open fault ", count, "\n"),
            Status::Memory => plain("out of memory\n"),
            Status::Differs { differed } => numbered("vectors differ: ", differed, "\n"),
            Status::Quota { frames } => numbered("quota of ", frames, " frames\n"),
            Status::SeedShort { node, have, need } => seed_short(node, have, need),
            Status::SourceRefused { source } => {
                numbered("source ", u64::from(source), " refused\n")
            }
        }
    }

    /// The status of a program whose one session ended so.
    pub fn of(end: End) -> Status
        ensures { result ≡ status_of end }
    {
        match end {
            End::Read { .. } => Status::Done,
            End::Bad { offset, why } => Status::Malformed { offset, why },
            End::Cut { offset } => Status::Cut { offset },
            End::ReadFault { count } => Status::ReadFault { count },
            End::WriteFault { count } => Status::WriteFault { count },
            End::Quota { frames } => Status::Quota { frames },
        }
    }
}
