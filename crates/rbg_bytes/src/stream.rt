// What is asked of the outside where bytes come from and go to.
ghost use Rattle.std.specs.Prelude.{◌≡◌, ◌<◌, List, ℕ, length, None};
ghost use Rattle.std.specs.declared.option.Option.{Option};
ghost use Rattle.std.specs.Io.{ReadsAtMost};
ghost use Rattle.std.specs.Io.KnownBytes.{ReadConsumes};
ghost use Rattle.rbg_bytes.specs.Streams.{HasCause, TakesAll};

/// The outside failed. Its count of faults rose in the call that answers this.
#[derive(Clone, Copy, Debug, PartialEq, Eq)]
pub struct Failed;

/// No memory was left.
#[derive(Clone, Copy, Debug, PartialEq, Eq)]
pub struct OutOfMemory;

/// Where bytes come from: a file, a socket, standard input, or a list in memory.
pub trait ByteSource: Drop {
    /// The bytes that are still to come, where the source tells them.
    ghost left: { Self → Option (List ℕ) };

    /// How often the source has failed. The count never falls.
    ghost faults: { Self → ℕ };

    /// Puts the next bytes, as many as it likes, at the front of a buffer that isn't empty, and says how many. None is the
    /// end, and comes only there where the source tells its bytes. A source that doesn't tell them never begins to. After
    /// `Failed` nothing was taken. What the buffer holds behind the bytes given, and after `Failed` anywhere, is not said.
    fn read(&mut self, buf: &mut [u8]) -> Result<usize, Failed>
        requires { 0 < length buf.old }
        ensures bound { ReadsAtMost result buf.new }
        ensures bytes { ReadConsumes (left self.old) (left self.new) result buf.new }
        ensures untold { left self.old ≡ None → left self.new ≡ None }
        ensures cause { HasCause (faults self.old) (faults self.new) result };

    /// How often the source has failed, up to 2^64 - 1.
    fn fault_count(&self) -> u64
        ensures { result ≡ faults self.now };
}

/// Where bytes go to: a file, a socket, standard output, or room in memory.
pub trait ByteSink: Drop {
    /// The bytes that were taken, where the sink tells them.
    ghost out: { Self → Option (List ℕ) };

    /// How often the sink has failed. The count never falls.
    ghost faults: { Self → ℕ };

    /// Hands over a piece. After `Ok` all of it was taken, after `Failed` some front of it.
    fn write_all(&mut self, bytes: &[u8]) -> Result<(), Failed>
        ensures bytes { TakesAll (out self.old) (out self.new) result bytes.now }
        ensures cause { HasCause (faults self.old) (faults self.new) result };

    /// How often the sink has failed, up to 2^64 - 1.
    fn fault_count(&self) -> u64
        ensures { result ≡ faults self.now };
}
