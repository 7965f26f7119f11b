//! Laws of texts.
ghost use Rattle.encoding_laws.specs.FieldLaws.{TextsAreReadBack, IdsAreReadBack, OptIdsAreReadBack, SlugsAreReadBack, NamesAreReadBack};

/// A text is read back.
pub fn texts_are_read_back()
    ensures { TextsAreReadBack }
{}

/// An `Id` is read back.
pub fn ids_are_read_back()
    ensures { IdsAreReadBack }
{}

/// An `OptId` is read back.
pub fn opt_ids_are_read_back()
    ensures { OptIdsAreReadBack }
{}

/// A `Slug` is read back.
pub fn slugs_are_read_back()
    ensures { SlugsAreReadBack }
{}

/// A `Name` is read back.
pub fn names_are_read_back()
    ensures { NamesAreReadBack }
{}
