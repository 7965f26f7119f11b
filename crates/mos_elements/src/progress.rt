//! What taking a token comes to.
/// What taking a token comes to.
#[derive(Clone, Copy)]
pub enum Progress {
    /// the message goes on
    More,
    /// the message is whole: its value waits to be taken
    Whole,
}
