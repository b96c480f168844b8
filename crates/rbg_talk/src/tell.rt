// Reply frames become lines, or the bytes that they give, one after another.
ghost use Rattle.std.specs.Prelude.{◌≡◌, ◌≤◌, ◌<◌, ◌+◌, ◌^◌, List, ℕ, [], ◌∷◌, ◌++◌, length, take, nat_eq, if◌then◌else◌, IfOk, IfErr, OnOk};
ghost use Rattle.std.specs.declared.option.Option.{Option};
ghost use Rattle.std.specs.Io.KnownBytes.{Appends, Consumes, IsAtEnd};
ghost use Rattle.rbg_bytes.specs.Streams.{HasCause, TakesAll};
ghost use Rattle.frame_codec.specs.Frames.{IsReplyHead};
ghost use Rattle.rbg_talk.specs.Shown.{IsPayloadOf, written};
ghost use Rattle.rbg_talk.specs.Ends.{ReplyEnds};
ghost use Rattle.rbg_talk.specs.Causes.{HasReadCause, HasWriteCause, HasPieceCause, IsWriteEnd, IsOwnEnd, IsTellEnd};
ghost use Rattle.rbg_talk.specs.Teller.{HasRooms, IsTeller, Begins, SameReply, KeepsCount, EndsReply, StandsAt, GoesOn, Tells, reply_of};

use crate::ask::{MAX_BYTES, PIECE_LEN};
use crate::shown::{MAX_TEXT, given, put_line};
use crate::status::Status;
use crate::way::Way;
use frame_codec::{ReplyDecoder, ReplyHead, ReplyStep};
use rbg_bytes::{ByteSink, ByteSource, Failed, put_at};
use std::alloc::{AllocError, Global};

/// The most bytes of a payload.
const MAX_PAYLOAD: usize = 65_536;

/// What is kept between two bytes of the input: the decoder, the head whose payload comes with its bytes so far, whether a
/// frame is begun, how many replies were refusals, and how many bytes were taken; and room for a line.
#[derive(Drop)]
pub struct Teller {
    pub way: Way,
    pub decoder: ReplyDecoder,
    pub head: ReplyHead,
    pub payload: Vec<u8>,
    pub got: usize,
    pub inside: bool,
    pub refusals: u64,
    pub taken: u64,
    pub text: Vec<u8>,
}

/// The head before the first.
const NO_HEAD: ReplyHead = ReplyHead {
    code: 255,
    op: 0,
    node: 0,
    id: 0,
    a: 0,
    b: 0,
    len: 0,
};

// 1 where the code is that of a refusal, or of Malformed.
fn refusal(code: u8) -> u64
    ensures value { result ≡ (if nat_eq code 0 then 0 else 1) }
    ensures bound { result ≤ 1 }
{
    if code == 0 { 0 } else { 1 }
}

// Writes the line that shows a reply, in one piece.
fn write_shown<O: ByteSink>(
    head: &ReplyHead,
    payload: &[u8],
    text: &mut [u8],
    output: &mut O,
) -> Result<(), Failed>
    requires payload { IsPayloadOf head.now payload.now }
    requires room { length text.old ≡ 131585 }
    ensures bytes { TakesAll (O.out output.old) (O.out output.new) result (written Way.Show (record { head = head.now; string = payload.now })) }
    ensures cause { HasCause (O.faults output.old) (O.faults output.new) result }
{
    let len = put_line(head, payload, text);
    output.write_all(&text[..len])
}

impl Teller {
    /// At the begin of an input. All memory is taken here.
    pub fn open(alloc: Global, way: Way) -> Result<Teller, AllocError>
        ensures teller { IfOk result IsTeller }
        ensures begins { IfOk result (Begins way) }
    {
        let payload = vec![in alloc; 0u8; MAX_PAYLOAD]?;
        let text = vec![in alloc; 0u8; MAX_TEXT]?;
        Ok(Teller {
            way,
            decoder: ReplyDecoder::fresh(),
            head: NO_HEAD,
            payload,
            got: 0,
            inside: false,
            refusals: 0,
            taken: 0,
            text,
        })
    }

    // Writes the line that shows the reply that is whole, in one piece.
    fn write_line<O: ByteSink>(&mut self, output: &mut O) -> Result<(), Status>
        requires room { length self.old.text.items ≡ 131585 }
        requires got { self.old.got ≤ length self.old.payload.items }
        requires payload { IsPayloadOf self.old.head (take self.old.got self.old.payload.items) }
        ensures bytes { TakesAll (O.out output.old) (O.out output.new) result (written Way.Show (reply_of self.old)) }
        ensures cause { HasPieceCause (O.faults output.old) (O.faults output.new) result }
        ensures kind { IfErr result IsWriteEnd }
        ensures same { SameReply self.old self.new }
        ensures kept { KeepsCount self.old self.new }
    {
        let payload = &self.payload[..self.got];
        match write_shown(&self.head, payload, &mut self.text, output) {
            Ok(()) => Ok(()),
            Err(_) => Err(Status::WriteFault {
                count: output.fault_count(),
            }),
        }
    }

    // Writes the bytes that the reply gives, in one piece.
    fn write_given<O: ByteSink>(&self, output: &mut O) -> Result<(), Status>
        requires got { self.now.got ≤ length self.now.payload.items }
        ensures bytes { TakesAll (O.out output.old) (O.out output.new) result (written Way.Bytes (reply_of self.now)) }
        ensures cause { HasPieceCause (O.faults output.old) (O.faults output.new) result }
        ensures kind { IfErr result IsWriteEnd }
    {
        match output.write_all(given(&self.head, &self.payload[..self.got])) {
            Ok(()) => Ok(()),
            Err(_) => Err(Status::WriteFault {
                count: output.fault_count(),
            }),
        }
    }

    // Writes what is made of the reply, in one piece.
    fn write<O: ByteSink>(&mut self, output: &mut O) -> Result<(), Status>
        requires room { length self.old.text.items ≡ 131585 }
        requires got { self.old.got ≤ length self.old.payload.items }
        requires payload { IsPayloadOf self.old.head (take self.old.got self.old.payload.items) }
        ensures bytes { TakesAll (O.out output.old) (O.out output.new) result (written self.old.way (reply_of self.old)) }
        ensures cause { HasPieceCause (O.faults output.old) (O.faults output.new) result }
        ensures kind { IfErr result IsWriteEnd }
        ensures same { SameReply self.old self.new }
        ensures kept { KeepsCount self.old self.new }
    {
        match self.way {
            Way::Show => self.write_line(output),
            Way::Bytes => self.write_given(output),
        }
    }

    // The reply is whole: writes what is made of it, and counts it where it is a refusal.
    fn end_reply<O: ByteSink>(&mut self, output: &mut O) -> Result<(), Status>
        requires rooms { HasRooms self.old }
        requires got { self.old.got ≡ self.old.head.len }
        requires head { IsReplyHead self.old.head }
        requires refusals { self.old.refusals < 2 ^ 63 }
        ensures bytes { TakesAll (O.out output.old) (O.out output.new) result (written self.old.way (reply_of self.old)) }
        ensures cause { HasPieceCause (O.faults output.old) (O.faults output.new) result }
        ensures kind { IfErr result IsWriteEnd }
        ensures same { SameReply self.old self.new }
        ensures ended { OnOk result (EndsReply self.old self.new) }
    {
        match self.write(output) {
            Ok(()) => {}
            Err(status) => return Err(status),
        }
        self.refusals += refusal(self.head.code);
        self.inside = false;
        Ok(())
    }

    // Takes the next byte of the input.
    fn take<O: ByteSink>(&mut self, byte: u8, output: &mut O) -> Result<(), Status>
        requires teller { IsTeller self.old }
        requires bound { self.old.taken < 2 ^ 62 }
        ensures goes { (before : Option (List ℕ)) (taken : List ℕ) → StandsAt before taken self.old (O.out output.old) →
            GoesOn self.old.way before (taken ++ byte ∷ []) self.new (O.out output.new) result }
        ensures teller { OnOk result (IsTeller self.new) }
        ensures taken { OnOk result (self.new.taken ≡ self.old.taken + 1) }
        ensures way { OnOk result (self.new.way ≡ self.old.way) }
        ensures cause { HasPieceCause (O.faults output.old) (O.faults output.new) result }
        ensures kind { IfErr result IsOwnEnd }
    {
        self.taken += 1;
        match self.decoder.push(byte) {
            ReplyStep::More => {
                self.inside = true;
                Ok(())
            }
            ReplyStep::Head(head) => {
                self.head = head;
                self.got = 0;
                self.inside = true;
                if head.len == 0 {
                    self.end_reply(output)
                } else {
                    Ok(())
                }
            }
            ReplyStep::Payload(byte) => {
                put_at(&mut self.payload, self.got, &[byte]);
                self.got += 1;
                self.inside = true;
                if self.got == self.head.len as usize {
                    self.end_reply(output)
                } else {
                    Ok(())
                }
            }
            ReplyStep::Bad { offset, why } => Err(Status::Malformed { offset, why }),
        }
    }

    // Takes the bytes of a piece.
    fn take_piece<O: ByteSink>(&mut self, piece: &[u8], output: &mut O) -> Result<(), Status>
        requires teller { IsTeller self.old }
        requires bound { self.old.taken + length piece.now ≤ 2 ^ 62 }
        ensures goes { (before : Option (List ℕ)) (taken : List ℕ) → StandsAt before taken self.old (O.out output.old) →
            GoesOn self.old.way before (taken ++ piece.now) self.new (O.out output.new) result }
        ensures teller { OnOk result (IsTeller self.new) }
        ensures taken { OnOk result (self.new.taken ≡ self.old.taken + length piece.now) }
        ensures way { OnOk result (self.new.way ≡ self.old.way) }
        ensures cause { HasPieceCause (O.faults output.old) (O.faults output.new) result }
        ensures kind { IfErr result IsOwnEnd }
    {
        for byte in piece {
            match self.take(*byte, output) {
                Ok(()) => {}
                Err(status) => return Err(status),
            }
        }
        Ok(())
    }

    // How it ends where the input has ended.
    fn finish(&self) -> Status
        requires teller { IsTeller self.now }
        ensures ends { (before left out : Option (List ℕ)) (taken : List ℕ) → StandsAt before taken self.now out → IsAtEnd left →
            Tells self.now.way before taken left out result }
        ensures kind { IsTellEnd result }
    {
        if self.inside {
            return Status::Cut { offset: self.taken };
        }
        if self.refusals == 0 {
            return Status::Done;
        }
        Status::Refused {
            refusals: self.refusals,
        }
    }

    /// Reads the input to its end, and writes what is made of its replies, each in one write. A read asks for as many bytes as
    /// the piece has room for.
    pub fn tell<I: ByteSource, O: ByteSink>(
        &mut self,
        piece: &mut [u8],
        input: &mut I,
        output: &mut O,
    ) -> Status
        requires teller { IsTeller self.old }
        requires begins { Begins self.old.way self.old }
        requires piece { length piece.old ≡ 65536 }
        ensures ends { (taken text : List ℕ) × Consumes (I.left input.old) (I.left input.new) taken × Appends (O.out output.old) (O.out output.new) text × ReplyEnds self.old.way result taken (I.left input.new) text }
        ensures read { HasReadCause (I.faults input.old) (I.faults input.new) result }
        ensures write { HasWriteCause (O.faults output.old) (O.faults output.new) result }
    {
        'reads: while self.taken <= MAX_BYTES - PIECE_LEN as u64 {
            let count = match input.read(piece) {
                Ok(count) => count,
                Err(_) => {
                    return Status::ReadFault {
                        count: input.fault_count(),
                    };
                }
            };
            if count == 0 {
                return self.finish();
            }
            if let Err(status) = self.take_piece(&piece[..count], output) {
                return status;
            }
        }
        Status::Quota { bytes: MAX_BYTES }
    }
}
