//! Fields whose text is to come.
use mos_events::KnownAttribute;
use mos_fields::{Field, Form};

/// A field with a text, behind its start tag.
#[derive(Clone, Copy)]
pub struct OpenField {
    pub field: Field,
    /// the type of its text
    pub form: Form,
    /// whether nothing but white space means that the field is absent
    pub may_lack: bool,
    /// the attribute that its start tag gave
    pub attribute: Option<KnownAttribute>,
}
