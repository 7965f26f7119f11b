//! What a text or a value stands for.
ghost use Rattle.std.specs.Prelude.{◌≡◌, ◌≤◌, ◌++◌, ℕ, length, OnOk, IfOk};
ghost use Rattle.std.specs.Char.Escape.{encode_utf16};
ghost use Rattle.mos_scanner.specs.Parts.{part};
ghost use Rattle.mos_scanner.specs.ScannerView.{IsSoundAt, resolved, resolved_units as resolved_units_of, given_name};
ghost use Rattle.mos_scanner.specs.declared.mode.Mode.TheVariants.{InValue};

use crate::scanner::Scanner;
use mos_fields::{NoMemory, Text};
use mos_tokens::Attribute;
use std::alloc::Global;

impl Scanner {
    /// Puts what the text or the value stands for into the buffer, which a reference is to go on.
    pub(crate) fn resolve(&mut self, held: &[u16], from: usize, here: usize) -> Result<(), NoMemory>
        requires onward { from ≤ here }
        requires within { here ≤ length held.now }
        ensures same { OnOk result (self.new ≡ record self.old { text = (self.new).text }) }
        ensures text { OnOk result ((self.new).text.items ≡ resolved_units_of self.old held.now from here) }
    {
        if !self.is_resolved {
            self.text.clear();
            self.text.extend_from_slice(&held[from..here])?;
        }
        Ok(())
    }

    /// One more character, which stands for itself.
    #[inline(always)]
    pub(crate) fn grow_resolved(
        &mut self,
        held: &[u16],
        here: usize,
        next: usize,
    ) -> Result<(), NoMemory>
        requires onward { here ≤ next }
        requires within { next ≤ length held.now }
        ensures same { OnOk result (self.new ≡ record self.old { text = (self.new).text }) }
        ensures grown { OnOk result ((from : ℕ) → from ≤ here → resolved_units_of self.new held.now from next ≡ resolved_units_of self.old held.now from here ++ part held.now here next) }
    {
        if self.is_resolved {
            self.text.extend_from_slice(&held[here..next])?;
        }
        Ok(())
    }

    /// One more character, which a reference stood for.
    pub(crate) fn push_resolved(&mut self, c: char) -> Result<(), NoMemory>
        ensures same { OnOk result (self.new ≡ record self.old { text = (self.new).text }) }
        ensures text { OnOk result ((self.new).text.items ≡ (self.old).text.items ++ encode_utf16 c) }
    {
        let mut pair = [0; 2];
        self.text.extend_from_slice(c.encode_utf16(&mut pair))?;
        Ok(())
    }

    /// The units of what the text or the value stands for that begins at this place.
    #[inline(always)]
    pub(crate) fn resolved_units<'a>(
        &'a self,
        held: &'a [u16],
        from: usize,
        here: usize,
    ) -> &'a [u16]
        requires onward { from ≤ here }
        requires within { here ≤ length held.now }
        ensures { result.now ≡ resolved_units_of self.now held.now from here }
    {
        if self.is_resolved {
            &self.text
        } else {
            &held[from..here]
        }
    }

    /// The attribute of which the value is whole.
    pub(crate) fn attribute(
        &self,
        alloc: Global,
        held: &[u16],
        here: usize,
    ) -> Result<Attribute, NoMemory>
        requires { IsSoundAt InValue self.now held.now here }
        ensures { IfOk result (λ a. a ≡ record { name = given_name self.now held.now; value = resolved self.now held.now (self.now).value_start here }) }
    {
        let name = Text::from_units(alloc, &held[self.attribute_start..self.attribute_end])?;
        let value = Text::from_units(alloc, self.resolved_units(held, self.value_start, here))?;
        Ok(Attribute::new(name, value))
    }
}
