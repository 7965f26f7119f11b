//! Laws of times.
ghost use Rattle.encoding_laws.specs.FieldLaws.{TimesAreReadBack};

/// A time is read back.
pub fn times_are_read_back()
    ensures { TimesAreReadBack }
{}
