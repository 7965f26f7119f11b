//! What the target of a roElementAction aims at.

/// What the element_target of a roElementAction aims at. Its element_source is read by this.
#[derive(Clone, Copy)]
pub enum Aim {
    /// there is no element_target
    Nowhere,
    /// it holds a storyID alone
    AtStory,
    /// it holds a storyID and an itemID
    AtItem,
}
