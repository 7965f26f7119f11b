//! The call that the program makes.
ghost use Rattle.std.specs.Prelude.{◌≡◌, ◌≢◌, map, string_bytes};
ghost use Rattle.mos_io.specs.Counts.{Rose};
ghost use Rattle.stream_commands.specs.Running.{IsBounded};
ghost use Rattle.stream_commands.specs.Words.{OfInput};
ghost use Rattle.replay_commands.specs.Commands.{BrokenOffBy, Command, CutOffBy, DoneBy, Reads, RefusedBy, RejectedBy, WholeBy};
ghost use Rattle.replay_commands.specs.InWords.{ToldOfRejected, ToldOfStream};
ghost use Rattle.replay_commands.specs.Words.{AreWords, Asks, command_of};

use crate::words::{Asked, asked_for};
use mos_io::{Sink, Source};
use playing_commands::{make, replay};
use reading_commands::{check, show, take};
use std::alloc::Global;
use stream_commands::Status;
use world_stage::Stage;

/// The command that was asked for.
fn run_command<S: Source, K: Sink, T: Stage>(
    alloc: Global,
    command: Asked,
    source: &mut S,
    sink: &mut K,
    stage: &mut T,
) -> Status
    requires { IsBounded (S.bound source.old) }
    ensures usage { result ≢ Status.Usage }
    ensures done { result ≡ Status.Done → DoneBy (command_of command) (T.told stage.new) (T.shown stage.new) (S.left source.old) (S.left source.new) (K.written sink.old) (K.written sink.new) }
    ensures refused { result ≡ Status.Refused → RefusedBy (command_of command) (S.left source.old) (S.left source.new) (K.written sink.old) (K.written sink.new) }
    ensures read_fault { result ≡ Status.ReadFault → Reads (command_of command) × Rose (S.faults source.old) (S.faults source.new) }
    ensures write_fault { result ≡ Status.WriteFault → Rose (K.faults sink.old) (K.faults sink.new) }
    ensures cut_off { result ≡ Status.ReadFault → CutOffBy (command_of command) (S.left source.old) (S.left source.new) (K.written sink.old) (K.written sink.new) }
    ensures broken_off { result ≡ Status.WriteFault → BrokenOffBy (command_of command) (T.told stage.new) (T.shown stage.new) (S.left source.old) (S.left source.new) (K.written sink.old) (K.written sink.new) }
    ensures whole { result ≡ Status.Done → OfInput (S.left source.old) (WholeBy (command_of command) (K.written sink.old) (K.written sink.new)) }
    ensures rejected { result ≡ Status.Refused → OfInput (S.left source.old) (RejectedBy (command_of command) (K.written sink.old) (K.written sink.new)) }
{
    match command {
        Asked::Take => take(alloc, source, sink),
        Asked::Show => show(alloc, source, sink),
        Asked::Check => check(alloc, source, sink),
        Asked::Replay => replay(alloc, source, sink, stage),
        Asked::Make(count) => make(alloc, count, sink, stage),
    }
}

/// The same, message by message.
fn run_words<S: Source, K: Sink, T: Stage>(
    alloc: Global,
    words: &[String],
    source: &mut S,
    sink: &mut K,
    stage: &mut T,
) -> Status
    requires { IsBounded (S.bound source.old) }
    ensures usage { result ≡ Status.Usage → (AreWords (map string_bytes words.now) → ⊥) × (source.new ≡ source.old) × (sink.new ≡ sink.old) × (stage.new ≡ stage.old) }
    ensures used { (AreWords (map string_bytes words.now) → ⊥) → result ≡ Status.Usage }
    ensures done { result ≡ Status.Done → (c : Command) → Asks c (map string_bytes words.now) → DoneBy c (T.told stage.new) (T.shown stage.new) (S.left source.old) (S.left source.new) (K.written sink.old) (K.written sink.new) }
    ensures refused { result ≡ Status.Refused → (c : Command) → Asks c (map string_bytes words.now) → RefusedBy c (S.left source.old) (S.left source.new) (K.written sink.old) (K.written sink.new) }
    ensures read_fault { result ≡ Status.ReadFault → ((c : Command) → Asks c (map string_bytes words.now) → Reads c) × Rose (S.faults source.old) (S.faults source.new) }
    ensures write_fault { result ≡ Status.WriteFault → Rose (K.faults sink.old) (K.faults sink.new) }
    ensures cut_off { result ≡ Status.ReadFault → (c : Command) → Asks c (map string_bytes words.now) → CutOffBy c (S.left source.old) (S.left source.new) (K.written sink.old) (K.written sink.new) }
    ensures broken_off { result ≡ Status.WriteFault → (c : Command) → Asks c (map string_bytes words.now) → BrokenOffBy c (T.told stage.new) (T.shown stage.new) (S.left source.old) (S.left source.new) (K.written sink.old) (K.written sink.new) }
    ensures whole { result ≡ Status.Done → (c : Command) → Asks c (map string_bytes words.now) → OfInput (S.left source.old) (WholeBy c (K.written sink.old) (K.written sink.new)) }
    ensures rejected { result ≡ Status.Refused → (c : Command) → Asks c (map string_bytes words.now) → OfInput (S.left source.old) (RejectedBy c (K.written sink.old) (K.written sink.new)) }
{
    match asked_for(words) {
        Some(command) => run_command(alloc, command, source, sink, stage),
        None => Status::Usage,
    }
}

/// Does what the words ask for: reads `source` to its end, where the command reads, and writes to `sink`.
///
/// The words are those of the command, without the program's name: `take`, `show`, `check` or `replay` alone, or `make` and a
/// count of 1 to 6 digits, at most 200,000.
///
/// `take`, `show` and `check` read a stream of messages of Profiles 0, 1, 2 and 4 in any encoding, and of other messages as
/// they are written. `take` writes what a device without decks answers that accepted one connection and reads the messages
/// there: each answer in its canonical encoding, with the names and the messageID of its message, in one write, as soon as the
/// message is whole. `show` writes a line for each message, `check` behind the last one a line of how many messages and code
/// units there are. A rejection ends the output with the line `REFUSED`, its place in code units and its kind, which
/// `take` writes in UCS-2 and the others in UTF-8.
///
/// `replay` reads a script, plays its events on the stage, and writes its listing: a line for each event, and the state lines of
/// the world that the stage shows. Where a line is none, `REFUSED line n` is the whole output. `make` reads nothing, plays the
/// events that its count makes, and writes their summary. On a stage that plays the world's definition, as `WorldStage` does,
/// the listing and the summary are those of the run, and it is safe: what a gateway holds of an order is at each moment the
/// server's order after a prefix of its accepted edits.
///
/// `Done` comes where the input was read to its end and is what the command reads, a stream of messages with nothing but white
/// space and U+FEFF behind the last one, or a script; `Refused` where the bytes read show that it isn't, or the input ends
/// inside a message or a line; `Usage` exactly where the words ask for no command, and then nothing is read or written;
/// `ReadFault` and `WriteFault` only where the source's or the sink's count of faults rose, and `ReadFault` never in `make`. The
/// source tells a bound below 2^64 on the bytes that it may still give.
pub fn mos_run<S: Source, K: Sink, T: Stage>(
    alloc: Global,
    words: &[String],
    source: &mut S,
    sink: &mut K,
    stage: &mut T,
) -> Status
    requires { IsBounded (S.bound source.old) }
    ensures usage { result ≡ Status.Usage → (AreWords (map string_bytes words.now) → ⊥) × (source.new ≡ source.old) × (sink.new ≡ sink.old) × (stage.new ≡ stage.old) }
    ensures used { (AreWords (map string_bytes words.now) → ⊥) → result ≡ Status.Usage }
    ensures done { result ≡ Status.Done → (c : Command) → Asks c (map string_bytes words.now) → DoneBy c (T.told stage.new) (T.shown stage.new) (S.left source.old) (S.left source.new) (K.written sink.old) (K.written sink.new) }
    ensures refused { result ≡ Status.Refused → (c : Command) → Asks c (map string_bytes words.now) → RefusedBy c (S.left source.old) (S.left source.new) (K.written sink.old) (K.written sink.new) }
    ensures read_fault { result ≡ Status.ReadFault → ((c : Command) → Asks c (map string_bytes words.now) → Reads c) × Rose (S.faults source.old) (S.faults source.new) }
    ensures write_fault { result ≡ Status.WriteFault → Rose (K.faults sink.old) (K.faults sink.new) }
    ensures cut_off { result ≡ Status.ReadFault → (c : Command) → Asks c (map string_bytes words.now) → CutOffBy c (S.left source.old) (S.left source.new) (K.written sink.old) (K.written sink.new) }
    ensures broken_off { result ≡ Status.WriteFault → (c : Command) → Asks c (map string_bytes words.now) → BrokenOffBy c (T.told stage.new) (T.shown stage.new) (S.left source.old) (S.left source.new) (K.written sink.old) (K.written sink.new) }
    ensures whole { result ≡ Status.Done → (c : Command) → Asks c (map string_bytes words.now) → OfInput (S.left source.old) (ToldOfStream c (K.written sink.old) (K.written sink.new)) }
    ensures rejected { result ≡ Status.Refused → (c : Command) → Asks c (map string_bytes words.now) → OfInput (S.left source.old) (ToldOfRejected c (K.written sink.old) (K.written sink.new)) }
{
    run_words(alloc, words, source, sink, stage)
}
