// A text is replayed.
ghost use Rattle.std.specs.Prelude.{◌≡◌, ◌≤◌, ◌<◌, ◌+◌, ◌^◌, List, ℕ, length, OnOk};
ghost use Rattle.vector_text.specs.Feeding.{Follows, most_bytes};
ghost use Rattle.vector_replay.specs.Replaying.{Ends, Finishes, HasReadCause, HasWriteCause, Takes, replayed};

use crate::judgement::Verdict;
use crate::lines::{ROOM, write_difference, write_totals};
use crate::run::verdict;
use crate::totals::{ReplayRefusal, Totals};
use rbg_bytes::{ByteSink, ByteSource, Fixed};
use std::alloc::Global;
use vector_text::{Case, Family, Item, TextRefusal, VectorReader};

/// Runs a case, whose second output is kept, and counts it, and writes the lines of one that differs.
pub fn take_case<O: ByteSink>(
    totals: &mut Totals,
    case: &Case,
    got: &mut Fixed<4096>,
    room: &mut [u8],
    output: &mut O,
) -> Result<(), ReplayRefusal>
    requires room { length room.old ≡ 8198 }
    requires passed { totals.old.passed < 2 ^ 63 }
    requires differed { totals.old.differed < 2 ^ 63 }
    ensures takes { Takes totals.old case.now totals.new (O.out output.old) (O.out output.new) result }
    ensures cause { HasWriteCause (O.faults output.old) (O.faults output.new) result }
    ensures count { OnOk result (totals.new.passed + totals.new.differed ≡ totals.old.passed + totals.old.differed + 1) }
    ensures skipped { totals.new.skipped ≡ totals.old.skipped }
{
    match verdict(case, got) {
        Verdict::Same => {
            totals.passed += 1;
            Ok(())
        }
        Verdict::BadLengths => Err(ReplayRefusal::Text(TextRefusal::Fault {
            line: case.line,
            why: 7,
        })),
        Verdict::Differs => match write_difference(case, got, room, output) {
            Ok(()) => {
                totals.differed += 1;
                Ok(())
            }
            Err(_) => Err(ReplayRefusal::WriteFault {
                count: output.fault_count(),
            }),
        },
    }
}

/// Writes the last line.
pub fn finish<O: ByteSink>(totals: Totals, output: &mut O) -> Result<Totals, ReplayRefusal>
    ensures finishes { Finishes totals (O.out output.old) (O.out output.new) result }
    ensures cause { HasWriteCause (O.faults output.old) (O.faults output.new) result }
{
    match write_totals(&totals, output) {
        Ok(()) => Ok(totals),
        Err(_) => Err(ReplayRefusal::WriteFault {
            count: output.fault_count(),
        }),
    }
}

/// Replays a text that is read for a family: runs its cases one after another, writes three lines for each that differs and a
/// last line of the totals, each in one write. The text is the first 2^63 bytes of its source. All memory is taken first.
pub fn replay<I: ByteSource, O: ByteSink>(
    alloc: Global,
    family: Family,
    input: &mut I,
    output: &mut O,
) -> Result<Totals, ReplayRefusal>
    ensures ends { (text : List ℕ) × Follows (I.left input.old) most_bytes text × Ends (replayed family text) (O.out output.old) (O.out output.new) result }
    ensures read { HasReadCause (I.faults input.old) (I.faults input.new) result }
    ensures write { HasWriteCause (O.faults output.old) (O.faults output.new) result }
{
    let mut reader = match VectorReader::open(alloc, family) {
        Ok(reader) => reader,
        Err(_) => return Err(ReplayRefusal::OutOfMemory),
    };
    let mut room = match vec![in alloc; 0u8; ROOM] {
        Ok(room) => room,
        Err(_) => return Err(ReplayRefusal::OutOfMemory),
    };
    let mut got = Fixed::of(&[]);
    let mut totals = Totals {
        passed: 0,
        differed: 0,
        skipped: 0,
    };
    'items: loop {
        match reader.next(input) {
            Ok(Item::Case) => match take_case(
                &mut totals,
                reader.case(),
                &mut got,
                &mut room,
                output,
            ) {
                Ok(()) => {}
                Err(why) => return Err(why),
            },
            Ok(Item::Skipped) => totals.skipped += 1,
            Ok(Item::End) => return finish(totals, output),
            Err(why) => return Err(ReplayRefusal::Text(why)),
        }
    }
}
