//! Laws of raw elements.
ghost use Rattle.encoding_laws.specs.FieldLaws.{ElementsAreRaw, UnreadsAreReadBack};

/// The texts that `Unread::try_new` takes are the raw texts of one element.
pub fn elements_are_raw()
    ensures { ElementsAreRaw }
{}

/// An `Unread` is read back.
pub fn unreads_are_read_back()
    ensures { UnreadsAreReadBack }
{}
