//! Which part of a token is being read.

/// Which part of a token is being read.
#[derive(Clone, Copy)]
pub enum Mode {
    /// nothing of a token was read
    Begin,
    /// a text
    InText,
    /// behind a `&` in a text
    TextReference,
    /// behind `<`
    InTag,
    /// the name of a start tag or an empty tag
    StartName,
    /// between the attributes: whether white space came
    InStart(bool),
    /// the name of an attribute
    AttributeName,
    /// white space behind an attribute's name
    BeforeEquals,
    /// behind an attribute's `=`
    BeforeValue,
    /// an attribute's value
    InValue,
    /// behind a `&` in an attribute's value
    ValueReference,
    /// behind the `/` of an empty tag
    BeforeClose,
    /// behind `</`
    EndName,
    /// white space behind an end tag's name
    EndWhite,
    /// the rest of a raw element
    InTail,
    /// behind `<?`
    BeforeXml,
    /// behind `<?x`
    BeforeMl,
    /// behind `<?xm`
    BeforeL,
    /// behind `<?xml`
    AfterXml,
    /// the rest of the XML declaration: whether `?` stands directly before
    InDeclaration(bool),
}
