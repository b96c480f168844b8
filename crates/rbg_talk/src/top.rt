// What each command does.
ghost use Rattle.std.specs.Prelude.{◌≡◌, length, map, string_bytes, IfSome, IfNone, IfOk};
ghost use Rattle.std.specs.Io.KnownBytes.{Appends, Consumes};
ghost use Rattle.rbg_talk.specs.Run.{outside_of, Passes, CommandEnds, IsCommand, IsNoCommand, Ran, HasStatusCause, IsComplete};

use crate::ask::{Asker, PIECE_LEN};
use crate::status::Status;
use crate::tell::Teller;
use crate::way::Way;
use rbg_bytes::{ByteSink, ByteSource};
use std::alloc::{AllocError, Global};

/// A command.
#[derive(Clone, Copy)]
pub enum Command {
    /// Lines become request frames.
    Ask,
    /// Reply frames become lines, or the bytes that they give.
    Replies(Way),
    /// How the program is used is printed.
    Help,
}

/// How the program is used.
const HELP: &str =
    "usage: rbg_talk ask     lines on standard input become request frames on standard output\n       rbg_talk show    reply frames become lines\n       rbg_talk bytes   the bytes that replies to generate give, in binary\n\nA line is one of\n    instantiate NODE          generate NODE COUNT       reseed NODE\n    uninstantiate NODE        start SOURCE              status NODE\nand then, in any order, what the operation takes of: pr, strength N, string HEX.\nEmpty lines and lines that begin with # are passed over.\n";

// The command that the words are.
fn command_of(words: &[String]) -> Option<Command>
    ensures some { IfSome result (IsCommand (map string_bytes words.now)) }
    ensures none { IfNone result (IsNoCommand (map string_bytes words.now)) }
{
    let [word] = words else {
        return None;
    };
    match word.as_str() {
        "ask" => Some(Command::Ask),
        "show" => Some(Command::Replies(Way::Show)),
        "bytes" => Some(Command::Replies(Way::Bytes)),
        "--help" => Some(Command::Help),
        _ => None,
    }
}

// Room for what one read gives.
fn open_piece(alloc: Global) -> Result<Vec<u8>, AllocError>
    ensures { IfOk result (λ piece. length piece.items ≡ 65536) }
{
    vec![in alloc; 0u8; PIECE_LEN]
}

// Lines become request frames.
fn ask<I: ByteSource, O: ByteSink>(alloc: Global, input: &mut I, output: &mut O) -> Status
    ensures ends { let at = outside_of I.left I.faults O.out O.faults in
        Passes (CommandEnds Command.Ask result) (at input.old output.old) (at input.new output.new) }
    ensures cause { let at = outside_of I.left I.faults O.out O.faults in
        HasStatusCause (at input.old output.old) (at input.new output.new) result }
{
    let Ok(mut piece) = open_piece(alloc) else {
        return Status::Memory;
    };
    match Asker::open(alloc) {
        Ok(mut asker) => asker.ask(&mut piece, input, output),
        Err(_) => Status::Memory,
    }
}

// Reply frames become lines, or the bytes that they give.
fn tell<I: ByteSource, O: ByteSink>(
    alloc: Global,
    way: Way,
    input: &mut I,
    output: &mut O,
) -> Status
    ensures ends { let at = outside_of I.left I.faults O.out O.faults in
        Passes (CommandEnds (Command.Replies way) result) (at input.old output.old) (at input.new output.new) }
    ensures cause { let at = outside_of I.left I.faults O.out O.faults in
        HasStatusCause (at input.old output.old) (at input.new output.new) result }
{
    let Ok(mut piece) = open_piece(alloc) else {
        return Status::Memory;
    };
    match Teller::open(alloc, way) {
        Ok(mut teller) => teller.tell(&mut piece, input, output),
        Err(_) => Status::Memory,
    }
}

// Prints how the program is used.
fn help<I: ByteSource, O: ByteSink>(input: &mut I, output: &mut O) -> Status
    ensures ends { let at = outside_of I.left I.faults O.out O.faults in
        Passes (CommandEnds Command.Help result) (at input.old output.old) (at input.new output.new) }
    ensures cause { let at = outside_of I.left I.faults O.out O.faults in
        HasStatusCause (at input.old output.old) (at input.new output.new) result }
{
    // Nothing is read.
    let _input = input;
    match output.write_all(HELP.as_bytes()) {
        Ok(()) => {}
        Err(_) => {
            return Status::WriteFault {
                count: output.fault_count(),
            };
        }
    }
    Status::Done
}

// Does what a command says.
fn run_command<I: ByteSource, O: ByteSink>(
    alloc: Global,
    command: Command,
    input: &mut I,
    output: &mut O,
) -> Status
    ensures ends { let at = outside_of I.left I.faults O.out O.faults in
        Passes (CommandEnds command result) (at input.old output.old) (at input.new output.new) }
    ensures cause { let at = outside_of I.left I.faults O.out O.faults in
        HasStatusCause (at input.old output.old) (at input.new output.new) result }
{
    match command {
        Command::Ask => ask(alloc, input, output),
        Command::Replies(way) => tell(alloc, way, input, output),
        Command::Help => help(input, output),
    }
}

/// Does what the words say, and says how that ended.
///
/// - `ask`: the lines of the input become request frames, whose ids count from 1. The first faulty line ends it, after the
///   frames of the lines before it.
/// - `show`: the reply frames of the input become lines. The first byte with which no reply frame goes on ends it, after the
///   lines of the replies before it.
/// - `bytes`: likewise, but what is written is the payloads of the replies to Generate.
/// - `--help`: how the program is used is printed. Nothing is read from the input.
///
/// Where memory is lacking, nothing was read from the input, and nothing was written.
pub fn run<I: ByteSource, O: ByteSink>(
    alloc: Global,
    words: &[String],
    input: &mut I,
    output: &mut O,
) -> Status
    ensures ran { let at = outside_of I.left I.faults O.out O.faults in
        Ran (map string_bytes words.now) (at input.old output.old) (at input.new output.new) result }
    ensures cause { let at = outside_of I.left I.faults O.out O.faults in
        HasStatusCause (at input.old output.old) (at input.new output.new) result }
    ensures complete { let at = outside_of I.left I.faults O.out O.faults in
        IsComplete (map string_bytes words.now) (at input.old output.old) (at input.new output.new) result }
{
    match command_of(words) {
        Some(command) => run_command(alloc, command, input, output),
        None => Status::Usage,
    }
}
