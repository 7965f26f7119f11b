//! Values on the heap.
ghost use Rattle.std.specs.Prelude.{◌≡◌, IfOk};

use mos_fields::NoMemory;
use std::alloc::Global;
use std::marker::Model;
use std::sync::Arc;

/// A value on the heap, so that what holds it is small. Contracts see it as the value.
#[derive(Drop)]
pub struct Boxed<T> {
    held: Arc<T>,
}

impl<T> Model for Boxed<T> {
    ghost use Rattle.std.specs.Arc.{arc_value};

    ghost Value = { T };

    ghost view = { λ b. arc_value b.held };
}

impl<T> Boxed<T> {
    /// The value.
    pub fn as_ref(&self) -> &T
        ensures { result.now ≡ self.now }
    {
        &*self.held
    }
}

impl<T: Drop> Boxed<T> {
    /// This value, on the heap. The only error is that memory runs out; then the value is dropped.
    pub fn new(alloc: Global, value: T) -> Result<Self, NoMemory>
        ensures { IfOk result (λ b. b ≡ value) }
    {
        match Arc::new(alloc, value) {
            Ok(held) => Ok(Boxed { held }),
            Err(_) => Err(NoMemory),
        }
    }
}

impl<T> Boxed<T> {
    /// The same value again. The only error is that memory runs out.
    pub fn try_clone(&self) -> Result<Self, NoMemory>
        ensures { IfOk result (λ b. b ≡ self.now) }
    {
        match Arc::try_clone(&self.held) {
            Ok(held) => Ok(Boxed { held }),
            Err(_) => Err(NoMemory),
        }
    }
}
