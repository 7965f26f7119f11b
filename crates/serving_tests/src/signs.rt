//! What threads tell each other.
use mos_fields::NoMemory;
use std::alloc::Global;
use std::sync::Arc;
use std::sync::atomic::{AtomicBool, Ordering};

/// A sign that is given once.
pub type Sign = Arc<AtomicBool>;

// So often is looked for a sign, some seconds long.
const TURNS: u64 = 400_000_000;

/// A sign that isn't given yet.
pub fn new_sign(alloc: Global) -> Result<Sign, NoMemory> {
    match Arc::new(alloc, AtomicBool::new(false)) {
        Ok(sign) => Ok(sign),
        Err(_) => Err(NoMemory),
    }
}

/// The same sign, for another thread.
pub fn share(sign: &Sign) -> Result<Sign, NoMemory> {
    match Arc::try_clone(sign) {
        Ok(sign) => Ok(sign),
        Err(_) => Err(NoMemory),
    }
}

/// Gives a sign.
pub fn give(sign: &Sign) {
    sign.store(true, Ordering::SeqCst);
}

/// Waits for a sign, for some seconds. Whether it was given.
pub fn wait_for(sign: &Sign) -> bool {
    for _ in 0..TURNS {
        if sign.load(Ordering::SeqCst) {
            return true;
        }
    }
    false
}
