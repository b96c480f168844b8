// A text is replayed piece by piece, as it comes.
ghost use Rattle.std.specs.Prelude.{◌≡◌, ◌≤◌, ◌+◌, length, IfOk, IfSome, IfNone};
ghost use Rattle.vector_replay.specs.Replaying.{Fed, GoesBy, HasFedCause, IsCounted, ReadsNothing, Starts, room_behind};

use crate::lines::ROOM;
use crate::replaying::{finish, take_case};
use crate::totals::{ReplayRefusal, Totals};
use rbg_bytes::{ByteSink, Fixed, OutOfMemory};
use std::alloc::Global;
use std::marker::Model;
use vector_text::{Family, Item, VectorReader};

/// A text that is replayed piece by piece. It keeps less than a piece of it, and one case.
#[derive(Drop)]
pub struct Replaying {
    reader: VectorReader,
    totals: Totals,
    got: Fixed<4096>,
    room: Vec<u8>,
}

impl Model for Replaying {
    ghost use Rattle.std.specs.Prelude.{◌≡◌, length};
    ghost use Rattle.vector_replay.specs.Replaying.{Replayer};

    ghost Value = { Replayer };

    ghost view = { λ r. record { reader = r.reader; totals = r.totals } };

    ghost invariant = { λ r. length r.room.items ≡ 8198 };
}

// Runs the cases of what was taken in, up to where the text rests on what follows, or to the end of the replay.
fn run_held<O: ByteSink>(
    reader: &mut VectorReader,
    totals: &mut Totals,
    got: &mut Fixed<4096>,
    room: &mut [u8],
    output: &mut O,
) -> Option<Result<Totals, ReplayRefusal>>
    requires room { length room.old ≡ 8198 }
    requires counted { IsCounted totals.old reader.old }
    ensures goes { GoesBy (record { reader = reader.old; totals = totals.old }) (record { reader = reader.new; totals = totals.new }) (O.out output.old) (O.out output.new) result }
    ensures more { reader.new.window.room ≡ reader.old.window.room }
    ensures read { IfSome result ReadsNothing }
    ensures cause { HasFedCause (O.faults output.old) (O.faults output.new) result }
{
    'items: loop {
        match reader.next_held() {
            None => return None,
            Some(Ok(Item::Case)) => match take_case(totals, reader.case(), got, room, output) {
                Ok(()) => {}
                Err(why) => return Some(Err(why)),
            },
            Some(Ok(Item::Skipped)) => totals.skipped += 1,
            Some(Ok(Item::End)) => return Some(finish(*totals, output)),
            Some(Err(why)) => return Some(Err(ReplayRefusal::Text(why))),
        }
    }
}

impl Replaying {
    /// At the begin of a text that is read for a family. All memory is taken here.
    pub fn open(alloc: Global, family: Family) -> Result<Replaying, OutOfMemory>
        ensures { IfOk result (Starts family) }
    {
        let reader = match VectorReader::open(alloc, family) {
            Ok(reader) => reader,
            Err(why) => return Err(why),
        };
        match vec![in alloc; 0u8; ROOM] {
            Ok(room) => Ok(Replaying {
                reader,
                totals: Totals {
                    passed: 0,
                    differed: 0,
                    skipped: 0,
                },
                got: Fixed::of(&[]),
                room,
            }),
            Err(_) => Err(OutOfMemory),
        }
    }

    /// Takes in the next piece of the text, of at most 49,151 bytes, and runs the cases that end in it, as `replay` does; an empty
    /// piece is the end of the text. Says how the replay has ended, and none where it goes on.
    pub fn feed<O: ByteSink>(
        &mut self,
        piece: &[u8],
        output: &mut O,
    ) -> Option<Result<Totals, ReplayRefusal>>
        requires short { length self.old.reader.window.ahead + length piece.now ≤ 65536 }
        requires counted { IsCounted self.old.totals self.old.reader }
        ensures fed { Fed piece.now self.old self.new (O.out output.old) (O.out output.new) result }
        ensures more { self.new.reader.window.room ≡ room_behind piece.now self.old }
        ensures read { IfSome result ReadsNothing }
        ensures cause { HasFedCause (O.faults output.old) (O.faults output.new) result }
    {
        self.reader.give(piece);
        run_held(
            &mut self.reader,
            &mut self.totals,
            &mut self.got,
            &mut self.room,
            output,
        )
    }
}
