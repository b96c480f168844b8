// What is asked of the outside where samples come from.
ghost use Rattle.std.specs.Prelude.{◌≡◌, ◌<◌, List, ℕ, length, None};
ghost use Rattle.std.specs.declared.option.Option.{Option};
ghost use Rattle.std.specs.Io.{ReadsAtMost};
ghost use Rattle.std.specs.Io.KnownBytes.{ReadConsumes};
ghost use Rattle.rbg_bytes.specs.Streams.{HasCause};
ghost use Rattle.sample_source.specs.Reads.{given_by};

use rbg_bytes::Failed;

/// Where the samples of a noise source come from (SP 800-90B 2.2.1), a byte each: a device, a file, or a list in memory.
pub trait Samples: Drop {
    /// The samples that are still to come, where the source tells them.
    ghost told: { Self → Option (List ℕ) };

    /// How often the source has failed. The count never falls.
    ghost faults: { Self → ℕ };

    /// The reads: from which value a read that asks for so many samples, and gives these or fails, leads to which. A call that
    /// is generic over its samples learns it of a read that it makes, and in no other way.
    ghost reads: { Self → ℕ → Option (List ℕ) → Self → Type 0 };

    /// Puts the next samples, as many as it likes, at the front of a buffer that isn't empty, and says how many. None is the
    /// end, and comes only there where the source tells its samples. A source that doesn't tell them never begins to. After
    /// `Failed` nothing was taken. What the buffer holds behind the samples given, and after `Failed` anywhere, is not said.
    fn read(&mut self, buf: &mut [u8]) -> Result<usize, Failed>
        requires { 0 < length buf.old }
        ensures bound { ReadsAtMost result buf.new }
        ensures samples { ReadConsumes (told self.old) (told self.new) result buf.new }
        ensures untold { told self.old ≡ None → told self.new ≡ None }
        ensures cause { HasCause (faults self.old) (faults self.new) result }
        ensures made { reads self.old (length buf.old) (given_by result buf.new) self.new };

    /// How often the source has failed, up to 2^64 - 1.
    fn fault_count(&self) -> u64
        ensures { result ≡ faults self.now };
}
