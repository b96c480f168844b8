// Lines become request frames, one after another.
ghost use Rattle.std.specs.Prelude.{◌≡◌, ◌≤◌, ◌<◌, ◌+◌, ◌^◌, List, ℕ, [], ◌∷◌, ◌++◌, length, false, option_map, IfOk, IfErr, IfSome, OnOk};
ghost use Rattle.std.specs.declared.option.Option.{Option};
ghost use Rattle.std.specs.Io.KnownBytes.{Appends, Consumes, IsAtEnd};
ghost use Rattle.rbg_bytes.specs.Streams.{HasCause, TakesAll};
ghost use Rattle.frame_codec.specs.Grammar.{text_of, IsFramed};
ghost use Rattle.frame_codec.specs.Frames.{requests};
ghost use Rattle.rbg_talk.specs.Lines.{is_line_feed};
ghost use Rattle.rbg_talk.specs.Asking.{frame_behind, id_behind};
ghost use Rattle.rbg_talk.specs.Ends.{AskEnds};
ghost use Rattle.rbg_talk.specs.Parsed.{IsServed, asked_of};
ghost use Rattle.rbg_talk.specs.Causes.{HasReadCause, HasWriteCause, HasPieceCause, IsWriteEnd, IsLineEnd, IsOwnEnd};
ghost use Rattle.rbg_talk.specs.Asker.{HasRooms, IsAsker, Begins, SameLine, SameCalls, WritesSaid, EndsLine, StandsAt, GoesOn, Asks};

use crate::call::line_says;
use crate::grammar::Fault;
use crate::status::Status;
use frame_codec::{Request, encode_request};
use rbg_bytes::{ByteSink, ByteSource, Failed, put_at};
use std::alloc::{AllocError, Global};

/// The most bytes of a line, without its line feed.
const MAX_LINE: usize = 9_000;

/// The most bytes of a string.
const MAX_STRING: usize = 4_096;

/// The bytes of a frame's head.
const HEAD_LEN: usize = 16;

/// The bytes that one read of the input asks for.
pub const PIECE_LEN: usize = 65_536;

/// The most bytes of an input.
pub const MAX_BYTES: u64 = 1 << 62;

/// What is kept between two bytes of the input: the line that is begun, its number, how many calls stand before it, and how
/// many bytes were taken; and room for a string and for a frame.
#[derive(Drop)]
pub struct Asker {
    pub line: Vec<u8>,
    pub len: usize,
    pub number: u64,
    pub calls: u64,
    pub taken: u64,
    pub string: Vec<u8>,
    pub frame: Vec<u8>,
}

// Writes the frame of a request with its string, in one piece.
fn write_frame<O: ByteSink>(
    request: &Request,
    string: &[u8],
    frame: &mut [u8],
    output: &mut O,
) -> Result<(), Failed>
    requires framed { IsFramed requests (record { head = request.now; string = string.now }) }
    requires room { length (text_of requests (record { head = request.now; string = string.now })) ≤ length frame.old }
    ensures bytes { TakesAll (O.out output.old) (O.out output.new) result (text_of requests (record { head = request.now; string = string.now })) }
    ensures cause { HasCause (O.faults output.old) (O.faults output.new) result }
{
    let len = encode_request(request, string, frame);
    output.write_all(&frame[..len])
}

impl Asker {
    /// At the begin of an input. All memory is taken here.
    pub fn open(alloc: Global) -> Result<Asker, AllocError>
        ensures asker { IfOk result IsAsker }
        ensures begins { IfOk result Begins }
    {
        let line = vec![in alloc; 0u8; MAX_LINE]?;
        let string = vec![in alloc; 0u8; MAX_STRING]?;
        let frame = vec![in alloc; 0u8; HEAD_LEN + MAX_STRING]?;
        Ok(Asker {
            line,
            len: 0,
            number: 1,
            calls: 0,
            taken: 0,
            string,
            frame,
        })
    }

    // The id of the next call: ids count from 1, and go on at 0 behind 2^32 - 1.
    fn id(&self) -> u32
        requires { self.now.calls < 2 ^ 63 }
        ensures { result ≡ id_behind self.now.calls }
    {
        ((self.calls + 1) % (1 << 32)) as u32
    }

    // Writes the frame of a call, in one piece.
    fn write_call<O: ByteSink>(&mut self, request: Request, output: &mut O) -> Result<(), Status>
        requires asker { IsAsker self.old }
        requires served { IsServed request }
        ensures bytes { TakesAll (O.out output.old) (O.out output.new) result (frame_behind self.old.calls (asked_of request self.old.string.items)) }
        ensures cause { HasPieceCause (O.faults output.old) (O.faults output.new) result }
        ensures kind { IfErr result IsWriteEnd }
        ensures calls { OnOk result (self.new.calls ≡ self.old.calls + 1) }
        ensures same { SameLine self.old self.new }
    {
        let request = Request {
            id: self.id(),
            ..request
        };
        let string = &self.string[..usize::from(request.len)];
        match write_frame(&request, string, &mut self.frame, output) {
            Ok(()) => {
                self.calls += 1;
                Ok(())
            }
            Err(_) => Err(Status::WriteFault {
                count: output.fault_count(),
            }),
        }
    }

    // Begins the next line.
    fn begin_line(&mut self)
        requires { self.old.number < 2 ^ 63 }
        ensures same { SameCalls self.old self.new }
        ensures len { self.new.len ≡ 0 }
        ensures number { self.new.number ≡ self.old.number + 1 }
    {
        self.len = 0;
        self.number += 1;
    }

    // The line that is begun is whole and says this: writes the frame of its call, if it is one, and begins the next line.
    fn pass<O: ByteSink>(&mut self, said: Option<Request>, output: &mut O) -> Result<(), Status>
        requires asker { IsAsker self.old }
        requires served { IfSome said IsServed }
        ensures writes { WritesSaid (option_map (λ r. asked_of r self.old.string.items) said) self.old.calls self.old.number self.new (O.out output.old) (O.out output.new) result }
        ensures cause { HasPieceCause (O.faults output.old) (O.faults output.new) result }
        ensures kind { IfErr result IsOwnEnd }
        ensures taken { self.new.taken ≡ self.old.taken }
        ensures rooms { HasRooms self.new }
    {
        match said {
            Some(request) => match self.write_call(request, output) {
                Ok(()) => {
                    self.begin_line();
                    Ok(())
                }
                Err(status) => Err(status),
            },
            None => {
                self.begin_line();
                Ok(())
            }
        }
    }

    // The line that is begun is whole: writes the frame of its call, if it says one, and begins the next line.
    fn end_line<O: ByteSink>(&mut self, output: &mut O) -> Result<(), Status>
        requires asker { IsAsker self.old }
        ensures ends { EndsLine self.old self.new (O.out output.old) (O.out output.new) result }
        ensures cause { HasPieceCause (O.faults output.old) (O.faults output.new) result }
        ensures kind { IfErr result IsOwnEnd }
        ensures taken { self.new.taken ≡ self.old.taken }
        ensures rooms { HasRooms self.new }
    {
        match line_says(&self.line[..self.len], &mut self.string) {
            Ok(said) => self.pass(said, output),
            Err(fault) => Err(Status::Line {
                number: self.number,
                fault,
            }),
        }
    }

    // Takes a line feed.
    fn take_end<O: ByteSink>(&mut self, output: &mut O) -> Result<(), Status>
        requires asker { IsAsker self.old }
        requires bound { self.old.taken < 2 ^ 62 }
        ensures goes { (before : Option (List ℕ)) (taken : List ℕ) → StandsAt before taken self.old (O.out output.old) →
            GoesOn before (taken ++ 10 ∷ []) self.new (O.out output.new) result }
        ensures asker { OnOk result (IsAsker self.new) }
        ensures taken { OnOk result (self.new.taken ≡ self.old.taken + 1) }
        ensures cause { HasPieceCause (O.faults output.old) (O.faults output.new) result }
        ensures kind { IfErr result IsOwnEnd }
    {
        match self.end_line(output) {
            Ok(()) => {
                self.taken += 1;
                Ok(())
            }
            Err(status) => Err(status),
        }
    }

    // Takes a byte of a line.
    fn take_byte(&mut self, byte: u8) -> Result<(), Status>
        requires asker { IsAsker self.old }
        requires bound { self.old.taken < 2 ^ 62 }
        requires byte { is_line_feed byte ≡ false }
        ensures goes { (before out : Option (List ℕ)) (taken : List ℕ) → StandsAt before taken self.old out → GoesOn before (taken ++ byte ∷ []) self.new out result }
        ensures asker { OnOk result (IsAsker self.new) }
        ensures taken { OnOk result (self.new.taken ≡ self.old.taken + 1) }
        ensures kind { IfErr result IsLineEnd }
    {
        if self.len == MAX_LINE {
            return Err(Status::Line {
                number: self.number,
                fault: Fault::LongLine,
            });
        }
        put_at(&mut self.line, self.len, &[byte]);
        self.len += 1;
        self.taken += 1;
        Ok(())
    }

    // Takes the next byte of the input.
    fn take<O: ByteSink>(&mut self, byte: u8, output: &mut O) -> Result<(), Status>
        requires asker { IsAsker self.old }
        requires bound { self.old.taken < 2 ^ 62 }
        ensures goes { (before : Option (List ℕ)) (taken : List ℕ) → StandsAt before taken self.old (O.out output.old) →
            GoesOn before (taken ++ byte ∷ []) self.new (O.out output.new) result }
        ensures asker { OnOk result (IsAsker self.new) }
        ensures taken { OnOk result (self.new.taken ≡ self.old.taken + 1) }
        ensures cause { HasPieceCause (O.faults output.old) (O.faults output.new) result }
        ensures kind { IfErr result IsOwnEnd }
    {
        if byte == b'\n' {
            self.take_end(output)
        } else {
            self.take_byte(byte)
        }
    }

    // Takes the bytes of a piece.
    fn take_piece<O: ByteSink>(&mut self, piece: &[u8], output: &mut O) -> Result<(), Status>
        requires asker { IsAsker self.old }
        requires bound { self.old.taken + length piece.now ≤ 2 ^ 62 }
        ensures goes { (before : Option (List ℕ)) (taken : List ℕ) → StandsAt before taken self.old (O.out output.old) →
            GoesOn before (taken ++ piece.now) self.new (O.out output.new) result }
        ensures asker { OnOk result (IsAsker self.new) }
        ensures taken { OnOk result (self.new.taken ≡ self.old.taken + length piece.now) }
        ensures cause { HasPieceCause (O.faults output.old) (O.faults output.new) result }
        ensures kind { IfErr result IsOwnEnd }
    {
        for byte in piece {
            match self.take(*byte, output) {
                Ok(()) => {}
                Err(status) => return Err(status),
            }
        }
        Ok(())
    }

    // The input has ended, and with it the last line.
    fn finish<O: ByteSink>(&mut self, output: &mut O) -> Status
        requires asker { IsAsker self.old }
        ensures ends { (before left : Option (List ℕ)) (taken : List ℕ) → StandsAt before taken self.old (O.out output.old) → IsAtEnd left →
            Asks before taken left (O.out output.new) result }
        ensures cause { HasWriteCause (O.faults output.old) (O.faults output.new) result }
        ensures kind { IsOwnEnd result }
    {
        match self.end_line(output) {
            Ok(()) => Status::Done,
            Err(status) => status,
        }
    }

    /// Reads the input to its end, and writes the frames of the calls that its lines say, each in one write. A read asks for as
    /// many bytes as the piece has room for.
    pub fn ask<I: ByteSource, O: ByteSink>(
        &mut self,
        piece: &mut [u8],
        input: &mut I,
        output: &mut O,
    ) -> Status
        requires asker { IsAsker self.old }
        requires begins { Begins self.old }
        requires piece { length piece.old ≡ 65536 }
        ensures ends { (taken text : List ℕ) × Consumes (I.left input.old) (I.left input.new) taken × Appends (O.out output.old) (O.out output.new) text × AskEnds result taken (I.left input.new) text }
        ensures read { HasReadCause (I.faults input.old) (I.faults input.new) result }
        ensures write { HasWriteCause (O.faults output.old) (O.faults output.new) result }
    {
        'reads: while self.taken <= MAX_BYTES - PIECE_LEN as u64 {
            let count = match input.read(piece) {
                Ok(count) => count,
                Err(_) => {
                    return Status::ReadFault {
                        count: input.fault_count(),
                    };
                }
            };
            if count == 0 {
                return self.finish(output);
            }
            if let Err(status) = self.take_piece(&piece[..count], output) {
                return status;
            }
        }
        Status::Quota { bytes: MAX_BYTES }
    }
}
