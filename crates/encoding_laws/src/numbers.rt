//! Laws of numbers.
ghost use Rattle.encoding_laws.specs.FieldLaws.{SamplesAreReadBack, RevsAreReadBack};

/// A number of samples is read back.
pub fn samples_are_read_back()
    ensures { SamplesAreReadBack }
{}

/// A revision is read back.
pub fn revs_are_read_back()
    ensures { RevsAreReadBack }
{}
