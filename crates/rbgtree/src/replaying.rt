// A text of response files is replayed.
ghost use Rattle.std.specs.Prelude.{◌≡◌};
ghost use Rattle.rbgtree.specs.Check.{HasCheckCause};
ghost use Rattle.rbgtree.specs.Replay.{Replays, status_by};

use crate::status::Status;
use crate::world::World;
use rbg_bytes::ByteSink;
use std::alloc::Global;
use vector_replay::{ReplayRefusal, Replaying, Totals};
use vector_text::{Family, TextRefusal};

/// The bytes that one read of a file asks for.
const PIECE: usize = 32_768;

// How the program ends where a text was replayed so.
fn status_by(ended: Result<Totals, ReplayRefusal>) -> Status
    ensures { result ≡ status_by ended }
{
    match ended {
        Ok(totals) => {
            if totals.differed == 0 {
                return Status::Done;
            }
            Status::Differs {
                differed: totals.differed,
            }
        }
        Err(ReplayRefusal::Text(TextRefusal::Fault { line, why })) => Status::Text { line, why },
        Err(ReplayRefusal::Text(TextRefusal::ReadFault { count })) => Status::OpenFault { count },
        Err(ReplayRefusal::WriteFault { count }) => Status::WriteFault { count },
        Err(ReplayRefusal::OutOfMemory) => Status::Memory,
    }
}

/// Replays the text of a file for a family: the file is read piece by piece, and the cases that end in a piece are run before the
/// next is read. All memory is taken first.
pub fn run_replay<W: World, O: ByteSink>(
    alloc: Global,
    family: Family,
    name: &str,
    world: &mut W,
    output: &mut O,
) -> Status
    ensures replays { Replays (W.files world.old) family name.now (W.faults world.new) (O.out output.old) (O.out output.new) result }
    ensures files { W.files world.new ≡ W.files world.old }
    ensures recordings { W.recordings world.new ≡ W.recordings world.old }
    ensures cause { HasCheckCause (W.faults world.old) (W.faults world.new) (O.faults output.old) (O.faults output.new) result }
{
    let Ok(mut replaying) = Replaying::open(alloc, family) else {
        return Status::Memory;
    };
    let Ok(mut piece) = vec![in alloc; 0u8; PIECE] else {
        return Status::Memory;
    };
    let mut place: u64 = 0;
    'pieces: loop {
        let Ok(count) = world.read_file(name, place, &mut piece) else {
            return Status::OpenFault {
                count: world.fault_count(),
            };
        };
        if let Some(ended) = replaying.feed(&piece[..count], output) {
            return status_by(ended);
        }
        place += count as u64;
    }
}
