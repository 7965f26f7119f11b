//! What a start tag gives of the attribute that its table names.
use mos_events::KnownAttribute;
use mos_grammar::Fault;

/// What a start tag gives of the attribute that its table names.
#[derive(Clone, Copy)]
pub enum Given {
    /// the attribute with its value; nothing where the table names none
    Known(Option<KnownAttribute>),
    /// it lacks, is there twice, or has another value than its table allows
    Faulty(Fault),
}
