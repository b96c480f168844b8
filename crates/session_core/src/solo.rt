// A session on the tree of one caller: frames are read, answered and written, one after another.
ghost use Rattle.std.specs.Prelude.{◌≡◌, ◌≤◌, ◌<◌, ◌+◌, ◌^◌, ◌++◌, ◌∷◌, [], None, List, ℕ, length, Some, IsSome, OnOk, IfOk, IfErr};
ghost use Rattle.rbg_bytes.specs.Streams.{HasCause, TakesAll};
ghost use Rattle.frame_codec.specs.declared.frames.Request.{Request as Head};
ghost use Rattle.tree_rules.specs.History.{Entry, Opening};
ghost use Rattle.tree_rules.specs.Openings.{IsHistory};
ghost use Rattle.tree_core.specs.Made.{samples_in};
ghost use Rattle.tree_core.specs.Solo.{StandAfter};
ghost use Rattle.session_core.specs.Ends.{malformed};
ghost use Rattle.session_core.specs.Answers.{Answered};
ghost use Rattle.session_core.specs.Session.{Began, IsReady, Stands, GoesOn, PassesOver, WritesReply, HasReadCause, HasWriteCause, HasPieceCause, IsPieceEnd, AreMade, IsHeld, moment};

use crate::answers::{malformed_frame, reply_of};
use crate::end::End;
use crate::inbox::Inbox;
use crate::session::{Session, put_reply};
use frame_codec::Step;
use rbg_bytes::{ByteSink, ByteSource, Failed};
use sample_source::Samples;
use tree_core::SoloTree;

// Makes the call of the frame that was just whole, and writes its reply frame, in one write.
fn answer<S: Samples, O: ByteSink>(
    inbox: &mut Inbox,
    buffer: &mut [u8],
    tree: &mut SoloTree<S>,
    output: &mut O,
) -> Result<(), Failed>
    requires asked { IsSome inbox.old.asked }
    requires few { tree.old.calls < 2 ^ 40 }
    requires room { length buffer.old ≡ 65568 }
    ensures replies { (r : Head) → inbox.old.asked ≡ Some r → (f : Opening) (o h : List Entry) → IsHistory f o h → f.plan ≡ tree.old.plan →
        StandAfter S.told S.faults f o h tree.old.nodes tree.old.sources →
        WritesReply S.told S.faults S.reads f o h (samples_in tree.old.sources) (record { head = r; string = inbox.old.decoder.string }) tree.new (O.out output.old) (O.out output.new) result }
    ensures cause { HasCause (O.faults output.old) (O.faults output.new) result }
    ensures decoder { inbox.new.decoder ≡ inbox.old.decoder }
    ensures max_frames { inbox.new.max_frames ≡ inbox.old.max_frames }
    ensures plan { tree.new.plan ≡ tree.old.plan }
    ensures calls { tree.new.calls ≡ tree.old.calls + 1 }
{
    let call = inbox.next_call();
    let (_, payload) = buffer.split_at_mut(32);
    let reply = tree.call(&call, inbox.string(), payload);
    let reply = reply_of(reply.code, reply.a, reply.b, reply.len);
    let end = put_reply(inbox, buffer, &reply);
    let written = output.write_all(&buffer[4..end]);
    written
}

// Tells the caller that a byte is bad.
fn refuse<O: ByteSink>(offset: u64, why: u8, output: &mut O) -> Result<(), Failed>
    ensures bytes { TakesAll (O.out output.old) (O.out output.new) result (malformed offset why) }
    ensures cause { HasCause (O.faults output.old) (O.faults output.new) result }
{
    output.write_all(&malformed_frame(offset, why))
}

// Takes bytes up to the end of a frame and answers it, or, where they end within a frame, all of them. Says how many.
fn take_frame<S: Samples, O: ByteSink>(
    inbox: &mut Inbox,
    buffer: &mut [u8],
    tree: &mut SoloTree<S>,
    frames: &mut u64,
    bytes: &[u8],
    output: &mut O,
) -> Result<usize, End>
    requires ready { IsReady (moment inbox.old frames.old tree.old) }
    requires some { 0 < length bytes.now }
    requires offset { inbox.old.decoder.offset + length bytes.now ≤ 2 ^ 62 }
    requires room { length buffer.old ≡ 65568 }
    ensures goes { (b : Began S) (taken : List ℕ) (es : List Answered) → Stands S.told S.faults S.reads b taken es (moment inbox.old frames.old tree.old) (O.out output.old) →
        GoesOn S.told S.faults S.reads b taken bytes.now (moment inbox.new frames.new tree.new) (O.out output.new) result }
    ensures ready { OnOk result (IsReady (moment inbox.new frames.new tree.new)) }
    ensures count { IfOk result (λ count. (0 < count) × (count ≤ length bytes.now) × (inbox.new.decoder.offset ≡ inbox.old.decoder.offset + count)) }
    ensures max { inbox.new.max_frames ≡ inbox.old.max_frames }
    ensures plan { tree.new.plan ≡ tree.old.plan }
    ensures cause { HasPieceCause (O.faults output.old) (O.faults output.new) result }
    ensures kind { IfErr result IsPieceEnd }
{
    let (count, step) = inbox.feed(bytes);
    match step {
        Step::More => Ok(count),
        Step::Bad { offset, why } => match refuse(offset, why, output) {
            Ok(()) => Err(End::Bad { offset, why }),
            Err(_) => Err(End::WriteFault {
                count: output.fault_count(),
            }),
        },
        Step::Whole(_) => match answer(inbox, buffer, tree, output) {
            Ok(()) => {
                *frames += 1;
                if *frames == inbox.max_frames() {
                    return Err(End::Quota { frames: *frames });
                }
                Ok(count)
            }
            Err(_) => Err(End::WriteFault {
                count: output.fault_count(),
            }),
        },
    }
}

// Takes the bytes of a piece, up to the end of the session.
fn take_piece<S: Samples, O: ByteSink>(
    inbox: &mut Inbox,
    buffer: &mut [u8],
    tree: &mut SoloTree<S>,
    frames: &mut u64,
    piece: &[u8],
    output: &mut O,
) -> Result<(), End>
    requires ready { IsReady (moment inbox.old frames.old tree.old) }
    requires offset { inbox.old.decoder.offset + length piece.now ≤ 2 ^ 62 }
    requires room { length buffer.old ≡ 65568 }
    ensures goes { (b : Began S) (taken : List ℕ) (es : List Answered) → Stands S.told S.faults S.reads b taken es (moment inbox.old frames.old tree.old) (O.out output.old) →
        PassesOver S.told S.faults S.reads b (taken ++ piece.now) (moment inbox.new frames.new tree.new) (O.out output.new) result }
    ensures ready { OnOk result (IsReady (moment inbox.new frames.new tree.new)) }
    ensures offset { OnOk result (inbox.new.decoder.offset ≡ inbox.old.decoder.offset + length piece.now) }
    ensures max { inbox.new.max_frames ≡ inbox.old.max_frames }
    ensures plan { tree.new.plan ≡ tree.old.plan }
    ensures cause { HasPieceCause (O.faults output.old) (O.faults output.new) result }
    ensures kind { IfErr result IsPieceEnd }
{
    let mut at = 0;
    'frames: while at < piece.len() {
        match take_frame(inbox, buffer, tree, frames, &piece[at..], output) {
            Ok(count) => at += count,
            Err(end) => return Err(end),
        }
    }
    Ok(())
}

/// Answers the frames of a source from a tree, each before the next is decoded, at most as many as the buffers allow, and says how that
/// ended. A read asks for 65,536 bytes; each reply is one write. No memory is taken. What the tree made of it stands in the table of ends:
/// the replies are those of entries, one for each frame that was answered, in order, with which the tree's history goes on; and the reads
/// of the sources that stand in all of them are exactly those that were made, also where samples tell nothing.
pub fn session_solo<S: Samples, I: ByteSource, O: ByteSink>(
    buffers: &mut Session,
    tree: &mut SoloTree<S>,
    input: &mut I,
    output: &mut O,
) -> End
    requires room { length buffers.old.reply.items ≡ 65568 }
    requires calls { tree.old.calls + buffers.old.inbox.max_frames ≤ 2 ^ 40 }
    ensures table { (f : Opening) (o h : List Entry) → IsHistory f o h → f.plan ≡ tree.old.plan → StandAfter S.told S.faults f o h tree.old.nodes tree.old.sources →
        IsHeld (AreMade S.told S.faults S.reads f o h (samples_in tree.old.sources) tree.old.calls tree.new) buffers.old.inbox.max_frames result (I.left input.old) (I.left input.new) (O.out output.old) (O.out output.new) }
    ensures read { HasReadCause (I.faults input.old) (I.faults input.new) result }
    ensures write { HasWriteCause (O.faults output.old) (O.faults output.new) result }
    ensures plan { tree.new.plan ≡ tree.old.plan }
    ensures room { length buffers.new.reply.items ≡ 65568 }
    ensures max_frames { buffers.new.inbox.max_frames ≡ buffers.old.inbox.max_frames }
{
    buffers.restart();
    let mut frames = 0;
    'reads: loop {
        let count = match buffers.piece.read(input) {
            Ok(count) => count,
            Err(_) => {
                return End::ReadFault {
                    count: input.fault_count(),
                };
            }
        };
        if count == 0 {
            if buffers.inbox.inside() {
                return End::Cut {
                    offset: buffers.inbox.offset(),
                };
            }
            return End::Read { frames };
        }
        let piece = buffers.piece.front(count);
        if let Err(end) = take_piece(
            &mut buffers.inbox,
            &mut buffers.reply,
            tree,
            &mut frames,
            piece,
            output,
        ) {
            return end;
        }
    }
}
