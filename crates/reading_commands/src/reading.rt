//! Streams of messages.
ghost use Rattle.std.specs.Prelude.{◌≡◌, ◌≢◌};
ghost use Rattle.mos_io.specs.Counts.{Rose};
ghost use Rattle.stream_commands.specs.Running.{IsBounded, IsBrokenOff, IsCutOff, IsDone, IsRefused};
ghost use Rattle.stream_commands.specs.Words.{IsDoneOf, IsRefusedOf, OfInput};
ghost use Rattle.stream_commands.specs.Lines.{count_line, refused_line};
ghost use Rattle.stream_commands.specs.Listings.{IsCounted, IsListed, no_last};
ghost use Rattle.device_answers.specs.Taking.{refused_text};
ghost use Rattle.reading_commands.specs.Answered.{AreAnswered};

use device_answers::{Device, close_device};
use mos_io::{Sink, Source};
use std::alloc::Global;
use stream_commands::{Counter, Lister, Status, run_stream};

/// `take`: answers the messages of the source as a device does that accepted one connection, each in one write.
pub fn take<S: Source, K: Sink>(alloc: Global, source: &mut S, sink: &mut K) -> Status
    requires { IsBounded (S.bound source.old) }
    ensures done { result ≡ Status.Done → IsDone AreAnswered no_last (S.left source.old) (S.left source.new) (K.written sink.old) (K.written sink.new) }
    ensures refused { result ≡ Status.Refused → IsRefused AreAnswered refused_text (S.left source.old) (S.left source.new) (K.written sink.old) (K.written sink.new) }
    ensures usage { result ≢ Status.Usage }
    ensures read_fault { result ≡ Status.ReadFault → Rose (S.faults source.old) (S.faults source.new) }
    ensures write_fault { result ≡ Status.WriteFault → Rose (K.faults sink.old) (K.faults sink.new) }
    ensures cut_off { result ≡ Status.ReadFault → IsCutOff AreAnswered (S.left source.old) (S.left source.new) (K.written sink.old) (K.written sink.new) }
    ensures broken_off { result ≡ Status.WriteFault → IsBrokenOff AreAnswered AreAnswered no_last refused_text (S.left source.old) (S.left source.new) (K.written sink.old) (K.written sink.new) }
    ensures whole { result ≡ Status.Done → OfInput (S.left source.old) (IsDoneOf AreAnswered no_last (K.written sink.old) (K.written sink.new)) }
    ensures rejected { result ≡ Status.Refused → OfInput (S.left source.old) (IsRefusedOf AreAnswered refused_text (K.written sink.old) (K.written sink.new)) }
{
    let mut device = Device::new(alloc);
    let status = run_stream(alloc, &mut device, source, sink);
    close_device(device);
    status
}

/// `show`: a line for each message of the source.
pub fn show<S: Source, K: Sink>(alloc: Global, source: &mut S, sink: &mut K) -> Status
    requires { IsBounded (S.bound source.old) }
    ensures done { result ≡ Status.Done → IsDone IsListed no_last (S.left source.old) (S.left source.new) (K.written sink.old) (K.written sink.new) }
    ensures refused { result ≡ Status.Refused → IsRefused IsListed refused_line (S.left source.old) (S.left source.new) (K.written sink.old) (K.written sink.new) }
    ensures usage { result ≢ Status.Usage }
    ensures read_fault { result ≡ Status.ReadFault → Rose (S.faults source.old) (S.faults source.new) }
    ensures write_fault { result ≡ Status.WriteFault → Rose (K.faults sink.old) (K.faults sink.new) }
    ensures cut_off { result ≡ Status.ReadFault → IsCutOff IsListed (S.left source.old) (S.left source.new) (K.written sink.old) (K.written sink.new) }
    ensures broken_off { result ≡ Status.WriteFault → IsBrokenOff IsListed IsListed no_last refused_line (S.left source.old) (S.left source.new) (K.written sink.old) (K.written sink.new) }
    ensures whole { result ≡ Status.Done → OfInput (S.left source.old) (IsDoneOf IsListed no_last (K.written sink.old) (K.written sink.new)) }
    ensures rejected { result ≡ Status.Refused → OfInput (S.left source.old) (IsRefusedOf IsListed refused_line (K.written sink.old) (K.written sink.new)) }
{
    run_stream(alloc, &mut Lister, source, sink)
}

/// `check`: a line of how many messages and code units the source has.
pub fn check<S: Source, K: Sink>(alloc: Global, source: &mut S, sink: &mut K) -> Status
    requires { IsBounded (S.bound source.old) }
    ensures done { result ≡ Status.Done → IsDone IsCounted count_line (S.left source.old) (S.left source.new) (K.written sink.old) (K.written sink.new) }
    ensures refused { result ≡ Status.Refused → IsRefused IsCounted refused_line (S.left source.old) (S.left source.new) (K.written sink.old) (K.written sink.new) }
    ensures usage { result ≢ Status.Usage }
    ensures read_fault { result ≡ Status.ReadFault → Rose (S.faults source.old) (S.faults source.new) }
    ensures write_fault { result ≡ Status.WriteFault → Rose (K.faults sink.old) (K.faults sink.new) }
    ensures cut_off { result ≡ Status.ReadFault → IsCutOff IsCounted (S.left source.old) (S.left source.new) (K.written sink.old) (K.written sink.new) }
    ensures broken_off { result ≡ Status.WriteFault → IsBrokenOff IsCounted IsCounted count_line refused_line (S.left source.old) (S.left source.new) (K.written sink.old) (K.written sink.new) }
    ensures whole { result ≡ Status.Done → OfInput (S.left source.old) (IsDoneOf IsCounted count_line (K.written sink.old) (K.written sink.new)) }
    ensures rejected { result ≡ Status.Refused → OfInput (S.left source.old) (IsRefusedOf IsCounted refused_line (K.written sink.old) (K.written sink.new)) }
{
    run_stream(alloc, &mut Counter, source, sink)
}
