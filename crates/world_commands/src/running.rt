//! The call that the program makes.
ghost use Rattle.std.specs.Prelude.{◌≡◌, map, string_bytes};
ghost use Rattle.mos_io.specs.Counts.{Rose};
ghost use Rattle.stream_commands.specs.Running.{IsBounded};
ghost use Rattle.stream_commands.specs.Words.{OfInput};
ghost use Rattle.replay_commands.specs.Commands.{Command, CutOffBy, Reads, RefusedBy};
ghost use Rattle.replay_commands.specs.InWords.{ToldOfRejected, ToldOfStream};
ghost use Rattle.replay_commands.specs.Words.{AreWords, Asks};
ghost use Rattle.world_commands.specs.InMemory.{BrokenInMemory, DoneInMemory};

use mos_io::{Sink, Source};
use replay_commands::mos_run;
use script_plays::honest_stages_write_the_run;
use std::alloc::Global;
use stream_commands::Status;
use world_stage::{WorldStage, close_stage};

/// Does what the words ask for, as `replay_commands::mos_run` does on a new stage: reads `source` to its end, where the command
/// reads, and writes to `sink`.
///
/// `take` answers the messages of a stream, `show` and `check` list and count them. `replay` writes the listing of the run of a
/// script, and `make` the summary of the run of the events that its count makes, and nothing else; each run is safe: what a
/// gateway holds of an order is at each moment the server's order after a prefix of its accepted edits.
///
/// `Done` comes where the input was read to its end and is what the command reads; `Refused` where the bytes read show that it
/// isn't, or the input ends inside a message or a line; `Usage` exactly where the words ask for no command, and then nothing is
/// read or written; `ReadFault` and `WriteFault` only where the source's or the sink's count of faults rose, and `ReadFault` never
/// in `make`. `NoMemory` may come in place of each but `Usage`. The source tells a bound below 2^64 on the bytes that it may
/// still give.
#[tactic(auto, using(crate::proofs::InMemory::done_in_memory, crate::proofs::InMemory::broken_in_memory))]
pub fn run_in_memory<S: Source, K: Sink>(
    alloc: Global,
    words: &[String],
    source: &mut S,
    sink: &mut K,
) -> Status
    requires { IsBounded (S.bound source.old) }
    ensures usage { result ≡ Status.Usage → (AreWords (map string_bytes words.now) → ⊥) × (source.new ≡ source.old) × (sink.new ≡ sink.old) }
    ensures used { (AreWords (map string_bytes words.now) → ⊥) → result ≡ Status.Usage }
    ensures done { result ≡ Status.Done → (c : Command) → Asks c (map string_bytes words.now) → DoneInMemory c (S.left source.old) (S.left source.new) (K.written sink.old) (K.written sink.new) }
    ensures refused { result ≡ Status.Refused → (c : Command) → Asks c (map string_bytes words.now) → RefusedBy c (S.left source.old) (S.left source.new) (K.written sink.old) (K.written sink.new) }
    ensures read_fault { result ≡ Status.ReadFault → ((c : Command) → Asks c (map string_bytes words.now) → Reads c) × Rose (S.faults source.old) (S.faults source.new) }
    ensures write_fault { result ≡ Status.WriteFault → Rose (K.faults sink.old) (K.faults sink.new) }
    ensures cut_off { result ≡ Status.ReadFault → (c : Command) → Asks c (map string_bytes words.now) → CutOffBy c (S.left source.old) (S.left source.new) (K.written sink.old) (K.written sink.new) }
    ensures broken_off { result ≡ Status.WriteFault → (c : Command) → Asks c (map string_bytes words.now) → BrokenInMemory c (S.left source.old) (S.left source.new) (K.written sink.old) (K.written sink.new) }
    ensures whole { result ≡ Status.Done → (c : Command) → Asks c (map string_bytes words.now) → OfInput (S.left source.old) (ToldOfStream c (K.written sink.old) (K.written sink.new)) }
    ensures rejected { result ≡ Status.Refused → (c : Command) → Asks c (map string_bytes words.now) → OfInput (S.left source.old) (ToldOfRejected c (K.written sink.old) (K.written sink.new)) }
{
    honest_stages_write_the_run();
    let mut stage = WorldStage::new(alloc);
    let status = mos_run(alloc, words, source, sink, &mut stage);
    close_stage(stage);
    status
}
