// Frames of a stream, counted.
ghost use Rattle.std.specs.Prelude.{◌≡◌, ◌≤◌, ◌+◌, ◌^◌, List, ℕ, length};
ghost use Rattle.frame_codec.specs.Decoding.{Reads};
ghost use Rattle.frame_codec.specs.Frames.{Asked};
ghost use Rattle.frame_bench.specs.Counted.{copies, CountsOn, HasFrames};

use frame_codec::{Decoder, Step};

// The most bytes of a stream.
pub const MOST: usize = 16_777_216;

// Decodes a stream more, and adds its frames to those before. Says whether it was taken whole.
fn count_on(decoder: &mut Decoder, stream: &[u8], count: &mut u64) -> bool
    requires offset { decoder.old.offset + length stream.now ≤ 2 ^ 62 }
    requires count { count.old ≤ decoder.old.offset }
    ensures counts { (b : List ℕ) (rs : List Asked) → Reads b rs decoder.old → count.old ≡ length rs →
        CountsOn b stream.now result decoder.new count.new }
    ensures offset { decoder.new.offset ≤ decoder.old.offset + length stream.now }
    ensures count { count.new ≤ decoder.new.offset }
{
    let mut at = 0;
    'frames: while at < stream.len() {
        let (taken, step) = decoder.feed(&stream[at..]);
        at += taken;
        match step {
            Step::Whole(_) => *count += 1,
            Step::More => return true,
            Step::Bad { .. } => return false,
        }
    }
    true
}

// How many frames so many copies of a stream have in a row, up to the first byte with which none goes on.
pub fn frames_in_copies(stream: &[u8], times: u16) -> u64
    requires { length stream.now ≤ 16777216 }
    ensures { HasFrames (copies times stream.now) result }
{
    let mut decoder = Decoder::fresh();
    let mut count = 0;
    for copy in 0..times {
        if !count_on(&mut decoder, stream, &mut count) {
            return count;
        }
    }
    count
}
