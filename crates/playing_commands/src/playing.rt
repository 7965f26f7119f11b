//! Scripts.
ghost use Rattle.std.specs.Prelude.{◌≡◌, ◌≢◌};
ghost use Rattle.mos_io.specs.Counts.{Rose};
ghost use Rattle.stream_commands.specs.Running.{IsBounded};
ghost use Rattle.script_plays.specs.Played.{IsMade, IsMadeBroken, IsReplayBroken, IsReplayed, IsScriptRefused};
ghost use Rattle.playing_commands.specs.Endings.{ending_status};

use mos_io::{Sink, Source};
use script_plays::{Ending, make as make_script, replay as replay_script};
use std::alloc::Global;
use stream_commands::Status;
use world_stage::Stage;

/// The status of how the run of a script ends.
fn status_of(ending: Ending) -> Status
    ensures { result ≡ ending_status ending }
{
    match ending {
        Ending::Done => Status::Done,
        Ending::Refused => Status::Refused,
        Ending::ReadFault => Status::ReadFault,
        Ending::WriteFault => Status::WriteFault,
        Ending::NoMemory => Status::NoMemory,
    }
}

/// `replay`: plays the script of the source on the stage, and writes its listing.
pub fn replay<S: Source, K: Sink, T: Stage>(
    alloc: Global,
    source: &mut S,
    sink: &mut K,
    stage: &mut T,
) -> Status
    requires { IsBounded (S.bound source.old) }
    ensures done { result ≡ Status.Done → IsReplayed (T.told stage.new) (T.shown stage.new) (S.left source.old) (S.left source.new) (K.written sink.old) (K.written sink.new) }
    ensures refused { result ≡ Status.Refused → IsScriptRefused (S.left source.old) (S.left source.new) (K.written sink.old) (K.written sink.new) }
    ensures usage { result ≢ Status.Usage }
    ensures read_fault { result ≡ Status.ReadFault → Rose (S.faults source.old) (S.faults source.new) }
    ensures write_fault { result ≡ Status.WriteFault → Rose (K.faults sink.old) (K.faults sink.new) }
    ensures unwritten { result ≡ Status.ReadFault → K.written sink.new ≡ K.written sink.old }
    ensures broken_off { result ≡ Status.WriteFault → IsReplayBroken (T.told stage.new) (T.shown stage.new) (S.left source.old) (S.left source.new) (K.written sink.old) (K.written sink.new) }
{
    status_of(replay_script(alloc, source, sink, stage))
}

/// `make`: plays the events that this count makes on the stage, and writes their summary. It reads nothing.
pub fn make<K: Sink, T: Stage>(alloc: Global, count: u32, sink: &mut K, stage: &mut T) -> Status
    ensures done { result ≡ Status.Done → IsMade (T.told stage.new) (T.shown stage.new) count (K.written sink.old) (K.written sink.new) }
    ensures refused { result ≢ Status.Refused }
    ensures usage { result ≢ Status.Usage }
    ensures read_fault { result ≢ Status.ReadFault }
    ensures write_fault { result ≡ Status.WriteFault → Rose (K.faults sink.old) (K.faults sink.new) }
    ensures broken_off { result ≡ Status.WriteFault → IsMadeBroken (T.told stage.new) (T.shown stage.new) count (K.written sink.old) (K.written sink.new) }
{
    status_of(make_script(alloc, count, sink, stage))
}
