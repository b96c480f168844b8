// The lines that are printed of a text, each in one write.
ghost use Rattle.std.specs.Prelude.{◌≡◌, ◌≤◌, length, take};
ghost use Rattle.std.specs.List.{concat};
ghost use Rattle.rbg_bytes.specs.Streams.{HasCause, TakesAll};
ghost use Rattle.vector_replay.specs.Report.{bytes_line, difference, differs_line, totals_line};

use crate::totals::Totals;
use rbg_bytes::{ByteSink, Failed, Fixed, Line, put_at, put_front};
use vector_text::{Case, put_digits};

/// The bytes of the longest line: a word of five bytes, the digits of 4,096 bytes and a line feed.
pub const ROOM: usize = 8_198;

// Writes the line that says which case differs.
fn write_place<O: ByteSink>(case: &Case, output: &mut O) -> Result<(), Failed>
    ensures bytes { TakesAll (O.out output.old) (O.out output.new) result (differs_line case.now) }
    ensures cause { HasCause (O.faults output.old) (O.faults output.new) result }
{
    let mut line = Line::new();
    line.text("differs line ");
    line.number(case.line);
    line.text(" count ");
    line.number(case.count);
    line.text("\n");
    output.write_all(line.as_bytes())
}

/// Writes the last line.
pub fn write_totals<O: ByteSink>(totals: &Totals, output: &mut O) -> Result<(), Failed>
    ensures bytes { TakesAll (O.out output.old) (O.out output.new) result (totals_line totals.now) }
    ensures cause { HasCause (O.faults output.old) (O.faults output.new) result }
{
    let mut line = Line::new();
    line.text("passed ");
    line.number(totals.passed);
    line.text(" differed ");
    line.number(totals.differed);
    line.text(" skipped ");
    line.number(totals.skipped);
    line.text("\n");
    output.write_all(line.as_bytes())
}

// Puts a line of a word and digits together, and says how many bytes it has.
fn put_line(word: &str, bytes: &[u8], room: &mut [u8]) -> usize
    requires word { length word.now ≤ 5 }
    requires bytes { length bytes.now ≤ 4096 }
    requires room { length room.old ≡ 8198 }
    ensures bound { result ≤ length room.new }
    ensures line { take result room.new ≡ bytes_line word.now bytes.now }
{
    let front = word.len();
    let end = front + 2 * bytes.len();
    put_front(room, word.as_bytes());
    put_digits(room, front, bytes);
    put_at(room, end, b"\n");
    end + 1
}

// Writes a line of a word and digits.
fn write_bytes<O: ByteSink>(
    word: &str,
    bytes: &[u8],
    room: &mut [u8],
    output: &mut O,
) -> Result<(), Failed>
    requires word { length word.now ≤ 5 }
    requires bytes { length bytes.now ≤ 4096 }
    requires room { length room.old ≡ 8198 }
    ensures bytes { TakesAll (O.out output.old) (O.out output.new) result (bytes_line word.now bytes.now) }
    ensures cause { HasCause (O.faults output.old) (O.faults output.new) result }
{
    let len = put_line(word, bytes, room);
    output.write_all(&room[..len])
}

/// Writes the lines of a case that differs, up to the first whose write fails.
pub fn write_difference<O: ByteSink>(
    case: &Case,
    got: &Fixed<4096>,
    room: &mut [u8],
    output: &mut O,
) -> Result<(), Failed>
    requires { length room.old ≡ 8198 }
    ensures bytes { TakesAll (O.out output.old) (O.out output.new) result (concat (difference case.now got.now)) }
    ensures cause { HasCause (O.faults output.old) (O.faults output.new) result }
{
    match write_place(case, output) {
        Ok(()) => {}
        Err(why) => return Err(why),
    }
    match write_bytes("want ", case.returned.as_slice(), room, output) {
        Ok(()) => {}
        Err(why) => return Err(why),
    }
    write_bytes("got ", got.as_slice(), room, output)
}
