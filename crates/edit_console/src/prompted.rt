//! Lines of a person at a terminal.
ghost use Rattle.std.specs.Prelude.{◌≡◌, ◌≤◌, ◌<◌, length, IfOk};

use mos_io::{Failed, Source};

/// What stands in front of a line that is awaited.
const PROMPT: &str = "edit> ";

/// A source that prompts for each line on standard error. It gives the bytes of another one, of which it takes a read that is a
/// whole line `help` or `quit` for itself: for `help` it prints the forms of a line, and gives an empty line in its place, so
/// that lines keep their numbers; with `quit` it is at its end. A terminal gives one line at each read.
///
/// What it has left isn't observable. Its faults are those of the other one.
#[derive(Drop)]
pub struct Prompted<S: Source, R: Eprint> {
    inner: S,
    rt: R,
    // what is printed for `help`
    help: &'static str,
    // whether the next byte begins a line
    begins: bool,
    // whether `quit` came
    ended: bool,
}

impl<S: Source, R: Eprint> Prompted<S, R> {
    /// A source of the lines of `inner`, at whose first line nothing was read yet.
    pub fn new(inner: S, rt: R, help: &'static str) -> Self {
        Prompted {
            inner,
            rt,
            help,
            begins: true,
            ended: false,
        }
    }

    // Prints a text on standard error. One that can't be written is lost.
    fn say(&self, text: &str) {
        let _ = self.rt.eprint(text);
    }
}

// Whether bytes end a line.
fn ends_line(bytes: &[u8]) -> bool {
    match bytes {
        [.., last] => *last == b'\n',
        [] => false,
    }
}

impl<S: Source, R: Eprint> Source for Prompted<S, R> {
    ghost use Rattle.std.specs.Prelude.{None};

    ghost left = { λ _. None };

    ghost bound = { λ _. None };

    ghost faults = { λ s. S.faults s.inner };

    fn read(&mut self, buf: &mut [u8]) -> Result<usize, Failed> {
        if self.ended {
            return Ok(0);
        }
        let begins = self.begins;
        if begins {
            self.say(PROMPT);
        }
        let count = match self.inner.read(buf) {
            Ok(count) => count,
            Err(failed) => return Err(failed),
        };
        self.begins = ends_line(&buf[..count]);
        if begins && &buf[..count] == b"quit\n".as_slice() {
            self.ended = true;
            return Ok(0);
        }
        if begins && &buf[..count] == b"help\n".as_slice() {
            self.say(self.help);
            buf[0] = b'\n';
            return Ok(1);
        }
        Ok(count)
    }
}
