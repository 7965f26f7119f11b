//! Laws of words.
ghost use Rattle.encoding_laws.specs.FieldLaws.{AirsAreReadBack, ObjTypesAreReadBack, OperationsAreReadBack, LevelsAreReadBack, FieldsAreReadBack};

/// An `Air` is read back.
pub fn airs_are_read_back()
    ensures { AirsAreReadBack }
{}

/// An `ObjType` is read back.
pub fn obj_types_are_read_back()
    ensures { ObjTypesAreReadBack }
{}

/// An `Operation` is read back.
pub fn operations_are_read_back()
    ensures { OperationsAreReadBack }
{}

/// A `Level` is read back.
pub fn levels_are_read_back()
    ensures { LevelsAreReadBack }
{}

/// A field's name is read back.
pub fn fields_are_read_back()
    ensures { FieldsAreReadBack }
{}
