//! Replaying scripts, and making them.
ghost use Rattle.std.specs.Prelude.{◌≡◌, ◌≢◌, ◌≤◌, ◌++◌, ℕ, Err, List, IsSome, OnOk, IfOk, IfErr};
ghost use Rattle.mos_io.specs.Bytes.{Appends, AppendsFront};
ghost use Rattle.mos_io.specs.Counts.{Rose};
ghost use Rattle.script_reader.specs.Reading.{IsBounded};
ghost use Rattle.world_scripts.specs.WorldEvents.{events_of};
ghost use Rattle.world_laws.specs.Outcomes.{Outcome as Told};
ghost use Rattle.world_scripts.specs.Made.{made_events};
ghost use Rattle.world_scripts.specs.Results.{summary as summary_of};
ghost use Rattle.world_stage.specs.Stages.{ShowsWorld};
ghost use Rattle.world_stage.specs.Worlds.{HaveSoundEdits};
ghost use Rattle.script_plays.specs.Counted.{CountsOf};
ghost use Rattle.script_plays.specs.Endings.{IsWriteEnding};
ghost use Rattle.script_plays.specs.Played.{HasState, IsListingOf, IsMade, IsMadeBroken, IsReplayBroken, IsReplayed, IsScriptRefused, IsSummaryOf, refused_line as refused_line_of};

use crate::counts::Counts;
use crate::lines::{push_count, refused_line};
use crate::playing::{play, play_made};
use crate::state::push_state;
use mos_fields::NoMemory;
use mos_io::{Sink, SinkFault, Source};
use script_reader::{ScriptFault, read_script};
use std::alloc::Global;
use world_laws::prefix_consistency;
use world_scripts::WorldEvent;
use world_stage::Stage;

/// How a run of a script ends.
#[derive(Clone, Copy, Debug, PartialEq, Eq)]
pub enum Ending {
    /// The script was played to its end, and all was written.
    Done,
    /// A line of the input is none; the line that was written tells its number.
    Refused,
    /// The source failed.
    ReadFault,
    /// The sink failed.
    WriteFault,
    /// Memory ran out.
    NoMemory,
}

/// Writes a text in one piece.
fn write<K: Sink>(sink: &mut K, text: &[u8]) -> Result<(), Ending>
    ensures written { OnOk result (Appends (K.written sink.old) (K.written sink.new) text.now) }
    ensures fault { IfErr result (λ e. IsWriteEnding (K.faults sink.old) (K.faults sink.new) e) }
    ensures part { result ≡ Err Ending.WriteFault → AppendsFront (K.written sink.old) (K.written sink.new) text.now }
{
    match sink.write_piece(text) {
        Ok(()) => Ok(()),
        Err(SinkFault::Failed) => Err(Ending::WriteFault),
        Err(SinkFault::NoMemory) => Err(Ending::NoMemory),
    }
}

/// Appends the state lines of the world that a stage shows.
fn push_shown<T: Stage>(alloc: Global, out: &mut Vec<u8>, stage: &T) -> Result<(), NoMemory>
    requires { IsSome (T.shown stage.now) }
    ensures state { OnOk result ((state : List ℕ) × (out.new.items ≡ out.old.items ++ state) × HasState (T.shown stage.now) state) }
    ensures world { OnOk result (ShowsWorld (T.shown stage.now)) }
{
    match stage.world() {
        Some(world) => push_state(alloc, out, world),
        None => unreachable!(),
    }
}

/// The listing of a script.
fn listing<T: Stage>(
    alloc: Global,
    devices: u32,
    events: &[WorldEvent],
    stage: &mut T,
) -> Result<Vec<u8>, NoMemory>
    requires least { 1 ≤ devices }
    requires most { devices ≤ 64 }
    requires sound { HaveSoundEdits (events_of events.now) }
    ensures { IfOk result (λ out. IsListingOf (T.told stage.new) (T.shown stage.new) devices (events_of events.now) out.items) }
{
    stage.begin(devices)?;
    let mut out = play(alloc, stage, events)?;
    push_shown(alloc, &mut out, stage)?;
    Ok(out)
}

/// The lines of counts.
fn counted(alloc: Global, counts: Counts) -> Result<Vec<u8>, NoMemory>
    ensures { IfOk result (λ out. (os : List Told) (state : List ℕ) → CountsOf counts os → out.items ++ state ≡ summary_of os state) }
{
    let mut out = Vec::new(alloc);
    push_count(alloc, &mut out, "events", counts.events)?;
    push_count(alloc, &mut out, "accepted", counts.accepted)?;
    push_count(alloc, &mut out, "refused", counts.refused)?;
    push_count(alloc, &mut out, "impossible", counts.impossible)?;
    Ok(out)
}

/// The summary of `make` with this count.
fn summary<T: Stage>(alloc: Global, count: u32, stage: &mut T) -> Result<Vec<u8>, NoMemory>
    ensures { IfOk result (λ out. IsSummaryOf (T.told stage.new) (T.shown stage.new) 2 (made_events count) out.items) }
{
    stage.begin(2)?;
    let counts = play_made(alloc, stage, count)?;
    let mut out = counted(alloc, counts)?;
    push_shown(alloc, &mut out, stage)?;
    Ok(out)
}

/// Writes the listing of a script.
fn write_listing<K: Sink, T: Stage>(
    alloc: Global,
    devices: u32,
    events: &[WorldEvent],
    sink: &mut K,
    stage: &mut T,
) -> Result<(), Ending>
    requires least { 1 ≤ devices }
    requires most { devices ≤ 64 }
    requires sound { HaveSoundEdits (events_of events.now) }
    ensures written { OnOk result ((text : List ℕ) × IsListingOf (T.told stage.new) (T.shown stage.new) devices (events_of events.now) text × Appends (K.written sink.old) (K.written sink.new) text) }
    ensures fault { IfErr result (λ e. IsWriteEnding (K.faults sink.old) (K.faults sink.new) e) }
    ensures part { result ≡ Err Ending.WriteFault → (text : List ℕ) × IsListingOf (T.told stage.new) (T.shown stage.new) devices (events_of events.now) text × AppendsFront (K.written sink.old) (K.written sink.new) text }
{
    match listing(alloc, devices, events, stage) {
        Ok(text) => write(sink, &text),
        Err(_) => Err(Ending::NoMemory),
    }
}

/// Writes that a script is refused at a line.
fn write_refusal<K: Sink>(alloc: Global, line: u64, sink: &mut K) -> Result<(), Ending>
    ensures written { OnOk result (Appends (K.written sink.old) (K.written sink.new) (refused_line_of line)) }
    ensures fault { IfErr result (λ e. IsWriteEnding (K.faults sink.old) (K.faults sink.new) e) }
    ensures part { result ≡ Err Ending.WriteFault → AppendsFront (K.written sink.old) (K.written sink.new) (refused_line_of line) }
{
    match refused_line(alloc, line) {
        Ok(text) => write(sink, &text),
        Err(_) => Err(Ending::NoMemory),
    }
}

/// Reads a script from `source` to its end, plays it on a stage, and writes its listing to `sink`: a line for each event, and
/// the state lines of the world that the stage shows. Where a line is none, `REFUSED line n` is written and nothing else.
///
/// `ReadFault` and `WriteFault` come only where the source's or the sink's count of faults rose. With `ReadFault` nothing was
/// written, with `WriteFault` perhaps a part of what was to be written, and nothing else.
pub fn replay<S: Source, K: Sink, T: Stage>(
    alloc: Global,
    source: &mut S,
    sink: &mut K,
    stage: &mut T,
) -> Ending
    requires { IsBounded (S.bound source.old) }
    ensures done { result ≡ Ending.Done → IsReplayed (T.told stage.new) (T.shown stage.new) (S.left source.old) (S.left source.new) (K.written sink.old) (K.written sink.new) }
    ensures refused { result ≡ Ending.Refused → IsScriptRefused (S.left source.old) (S.left source.new) (K.written sink.old) (K.written sink.new) }
    ensures read_fault { result ≡ Ending.ReadFault → Rose (S.faults source.old) (S.faults source.new) }
    ensures write_fault { result ≡ Ending.WriteFault → Rose (K.faults sink.old) (K.faults sink.new) }
    ensures unwritten { result ≡ Ending.ReadFault → K.written sink.new ≡ K.written sink.old }
    ensures broken_off { result ≡ Ending.WriteFault → IsReplayBroken (T.told stage.new) (T.shown stage.new) (S.left source.old) (S.left source.new) (K.written sink.old) (K.written sink.new) }
{
    prefix_consistency();
    match read_script(alloc, source) {
        Ok(script) => {
            match write_listing(alloc, script.devices, script.events.as_slice(), sink, stage) {
                Ok(()) => Ending::Done,
                Err(ending) => ending,
            }
        }
        Err(ScriptFault::Refused { line }) => match write_refusal(alloc, line, sink) {
            Ok(()) => Ending::Refused,
            Err(ending) => ending,
        },
        Err(ScriptFault::ReadFault) => Ending::ReadFault,
        Err(ScriptFault::NoMemory) => Ending::NoMemory,
    }
}

/// Plays the events of `make` with this count on a stage of two devices, and writes their summary to `sink`: how many events
/// there were, how many commands were answered `OK`, how many otherwise, how many events weren't possible, and the state lines
/// of the world that the stage shows.
///
/// `WriteFault` comes only where the sink's count of faults rose, and then perhaps a part of the summary was written, and
/// nothing else; `Refused` and `ReadFault` don't come.
pub fn make<K: Sink, T: Stage>(alloc: Global, count: u32, sink: &mut K, stage: &mut T) -> Ending
    ensures done { result ≡ Ending.Done → IsMade (T.told stage.new) (T.shown stage.new) count (K.written sink.old) (K.written sink.new) }
    ensures refused { result ≢ Ending.Refused }
    ensures read_fault { result ≢ Ending.ReadFault }
    ensures write_fault { result ≡ Ending.WriteFault → Rose (K.faults sink.old) (K.faults sink.new) }
    ensures broken_off { result ≡ Ending.WriteFault → IsMadeBroken (T.told stage.new) (T.shown stage.new) count (K.written sink.old) (K.written sink.new) }
{
    prefix_consistency();
    match summary(alloc, count, stage) {
        Ok(text) => match write(sink, &text) {
            Ok(()) => Ending::Done,
            Err(ending) => ending,
        },
        Err(_) => Ending::NoMemory,
    }
}
