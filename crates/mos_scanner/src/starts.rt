//! Reading the beginnings of tokens at once.
ghost use Rattle.std.specs.Prelude.{◌≡◌, ◌+◌, ◌≤◌, length};
ghost use Rattle.mos_fields.specs.Names.{is_start as is_start_of};
ghost use Rattle.mos_scanner.specs.Runs.{IsRun};
ghost use Rattle.mos_scanner.specs.ScannerView.{IsSound};
ghost use Rattle.mos_scanner.specs.declared.mode.Mode.TheVariants.{EndName, InTag};

use crate::mode::Mode;
use crate::plain::{is_plain, name_end};
use crate::scanner::Scanner;

/// What a name begins with.
#[inline(always)]
fn is_start_unit(u: u16) -> bool
    ensures { result ≡ is_start_of u }
{
    u >= 97 && u <= 122 || u >= 65 && u <= 90 || u == 95
}

/// A name has so many characters at most behind its first.
const FURTHER_LIMIT: usize = 127;

impl Scanner {
    /// Reads the `<` that begins a tag, or the character that begins a text and stands for itself.
    pub(crate) fn skip_begin(&mut self, held: &[u16], here: usize) -> usize
        requires within { here ≤ length held.now }
        requires sound { IsSound self.old held.now here }
        ensures { IsRun self.old self.new held.now here result }
    {
        match self.mode {
            Mode::Begin => {
                if here >= held.len() {
                    here
                } else if held[here] == 60 {
                    self.mode = Mode::InTag;
                    here + 1
                } else if is_plain(held[here], 60, 38) {
                    self.is_resolved = false;
                    self.mode = Mode::InText;
                    here + 1
                } else {
                    here
                }
            }
            _ => here,
        }
    }

    /// Reads the name of an end tag behind its `</`, as much of it as is held.
    fn skip_end_name(&self, held: &[u16], here: usize) -> usize
        requires within { here ≤ length held.now }
        requires mode { (self.now).mode ≡ EndName }
        requires sound { IsSound self.now held.now here }
        requires begun { (self.now).start + 2 ≡ here }
        ensures { IsRun self.now self.now held.now here result }
    {
        if here >= held.len() {
            here
        } else if is_start_unit(held[here]) {
            name_end(held, here + 1, FURTHER_LIMIT)
        } else {
            here
        }
    }

    /// Reads what stands behind the `<` of a tag: the `/` of an end tag, and the name, as much of it as is held.
    pub(crate) fn skip_tag(&mut self, held: &[u16], here: usize) -> usize
        requires within { here ≤ length held.now }
        requires mode { (self.old).mode ≡ InTag }
        requires sound { IsSound self.old held.now here }
        ensures { IsRun self.old self.new held.now here result }
    {
        if here >= held.len() {
            here
        } else if held[here] == 47 {
            self.mode = Mode::EndName;
            self.skip_end_name(held, here + 1)
        } else if is_start_unit(held[here]) {
            self.attributes.clear();
            self.mode = Mode::StartName;
            name_end(held, here + 1, FURTHER_LIMIT)
        } else {
            here
        }
    }
}
