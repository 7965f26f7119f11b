//! Scripts that orders share.
ghost use Rattle.std.specs.Prelude.{◌≡◌, IfOk};

use mos_fields::NoMemory;
use mos_values::{Boxed, StorySend, TryClone};
use std::alloc::Global;
use std::marker::Model;

/// A script that copies of an order share, with each other and with the message that brought it. Contracts see it as the
/// script.
#[derive(Drop)]
pub struct SharedScript {
    held: Boxed<StorySend>,
}

impl Model for SharedScript {
    ghost use Rattle.mos_values.specs.declared.story_send.StorySend.{StorySend as Value_};

    ghost Value = { Value_ };

    ghost view = { λ s. s.held };
}

impl SharedScript {
    /// A copy of a script. The only error is that memory runs out.
    pub fn of(alloc: Global, script: &StorySend) -> Result<Self, NoMemory>
        ensures { IfOk result (λ s. s ≡ script.now) }
    {
        let script = script.try_clone()?;
        Ok(SharedScript {
            held: Boxed::new(alloc, script)?,
        })
    }

    /// The script itself, which isn't copied. The only error is that memory runs out.
    pub fn sharing(script: &Boxed<StorySend>) -> Result<Self, NoMemory>
        ensures { IfOk result (λ s. s ≡ script.now) }
    {
        Ok(SharedScript {
            held: script.try_clone()?,
        })
    }

    /// The script.
    pub fn script(&self) -> &StorySend
        ensures { result.now ≡ self.now }
    {
        self.held.as_ref()
    }
}

/// The script isn't copied, but shared.
impl TryClone for SharedScript {
    fn try_clone(&self) -> Result<Self, NoMemory> {
        Ok(SharedScript {
            held: self.held.try_clone()?,
        })
    }
}
