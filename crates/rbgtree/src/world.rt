// What the program asks of the outside beside its input and output.
ghost use Rattle.std.specs.Prelude.{◌≡◌, ◌<◌, List, ℕ, length};
ghost use Rattle.std.specs.declared.option.Option.{Option};
ghost use Rattle.std.specs.Io.{ReadsAtMost};
ghost use Rattle.rbg_bytes.specs.Streams.{HasCause};
ghost use Rattle.rbgtree.specs.Files.{Entries, ReadsFile};
ghost use Rattle.rbgtree.specs.Recordings.{Recordings, OpensSamples};

use rbg_bytes::Failed;
use sample_source::Samples;

/// The files that the program reads, and the samples of noise sources.
pub trait World: Drop {
    /// The samples of one noise source, once they are opened.
    type Samples: Samples + Send;

    /// The files with their names, where the world tells them.
    ghost files: { Self → Option Entries };

    /// The samples that can still be opened, with their names and with how often each failed, where the world tells them.
    ghost recordings: { Self → Option Recordings };

    /// How often the world has failed. The count never falls.
    ghost faults: { Self → ℕ };

    /// Opens the samples of that name. Of several with one name the first is opened, and is no longer there afterwards.
    fn open_samples(&mut self, name: &str) -> Result<Self::Samples, Failed>
        ensures samples { OpensSamples Self.Samples.told Self.Samples.faults (recordings self.old) (recordings self.new) name.now result }
        ensures files { files self.new ≡ files self.old }
        ensures cause { HasCause (faults self.old) (faults self.new) result };

    /// Puts the bytes of a file from place `at` on, as many as it likes, at the front of a buffer that isn't empty, and says
    /// how many. None comes only at or past the file's end. Of files with one name the first is read.
    fn read_file(&mut self, name: &str, at: u64, buf: &mut [u8]) -> Result<usize, Failed>
        requires { 0 < length buf.old }
        ensures bound { ReadsAtMost result buf.new }
        ensures bytes { ReadsFile (files self.old) name.now at result buf.new }
        ensures files { files self.new ≡ files self.old }
        ensures recordings { recordings self.new ≡ recordings self.old }
        ensures cause { HasCause (faults self.old) (faults self.new) result };

    /// How often the world has failed, up to 2^64 - 1.
    fn fault_count(&self) -> u64
        ensures { result ≡ faults self.now };
}
