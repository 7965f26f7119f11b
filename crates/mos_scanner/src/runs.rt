//! Reading runs of characters at once.
ghost use Rattle.std.specs.Prelude.{◌≡◌, ◌≤◌, length, IfOk, true};
ghost use Rattle.mos_fields.specs.Raw.{is_quote as is_quote_of};
ghost use Rattle.mos_scanner.specs.Runs.{IsRun};
ghost use Rattle.mos_scanner.specs.ScannerView.{IsSound};

use crate::mode::Mode;
use crate::plain::{tail_end, text_end, value_end};
use crate::scanner::Scanner;
use mos_fields::NoMemory;

/// The code unit of a quote.
#[inline(always)]
fn quote_unit(quote: char) -> u16
    requires { is_quote_of quote ≡ true }
    ensures { result ≡ quote }
{
    if quote == '"' { 34 } else { 39 }
}

impl Scanner {
    /// Reads on in a text, a value or the rest of a raw element.
    fn skip_plain(&mut self, held: &[u16], here: usize) -> Result<usize, NoMemory>
        requires within { here ≤ length held.now }
        requires sound { IsSound self.old held.now here }
        ensures { IfOk result (λ next. IsRun self.old self.new held.now here next) }
    {
        match self.mode {
            Mode::InText => {
                let next = text_end(held, here);
                self.grow_resolved(held, here, next)?;
                Ok(next)
            }
            Mode::InTail => Ok(tail_end(held, here)),
            Mode::InValue => {
                let next = value_end(held, here, quote_unit(self.quote));
                self.grow_resolved(held, here, next)?;
                Ok(next)
            }
            _ => Ok(here),
        }
    }

    /// Reads on behind the first character of a token.
    fn skip_on(&mut self, held: &[u16], here: usize) -> Result<usize, NoMemory>
        requires within { here ≤ length held.now }
        requires sound { IsSound self.old held.now here }
        ensures { IfOk result (λ next. IsRun self.old self.new held.now here next) }
    {
        match self.mode {
            Mode::InTag => Ok(self.skip_tag(held, here)),
            _ => self.skip_plain(held, here),
        }
    }

    /// Reads characters of one unit, U+0020 to U+D7FF, behind each of which the token goes on, from `here` up to the
    /// place that it gives. It is the same as a step for each of them. The character there may belong to the run too.
    ///
    /// # Errors
    /// `NoMemory` where memory runs out. The scanner has to be given up then.
    pub fn skip(&mut self, held: &[u16], here: usize) -> Result<usize, NoMemory>
        requires within { here ≤ length held.now }
        requires sound { IsSound self.old held.now here }
        ensures { IfOk result (λ next. IsRun self.old self.new held.now here next) }
    {
        let begun = self.skip_begin(held, here);
        self.skip_on(held, begun)
    }
}
