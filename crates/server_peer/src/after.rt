//! What becomes of a view.

// What becomes of the view of an order.
#[derive(Clone, Copy)]
pub enum After {
    // An entry was answered: where it was taken, the device holds the order after `n` entries.
    Entry { taken: bool, n: u64 },
    // The script of entry `k` was answered, which was sent again.
    Script { taken: bool, k: u64 },
    // A whole-order edit was accepted, which is entry `n`.
    Given { n: u64 },
}
