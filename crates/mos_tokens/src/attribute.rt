//! Attributes of start tags.
ghost use Rattle.std.specs.Prelude.{◌≡◌, ℕ, List};
ghost use Rattle.mos_tables.specs.Events.{Attribute as AttributeOf};
ghost use Rattle.mos_fields.specs.Names.{is_name as is_name_of};

use mos_fields::Text;
use std::marker::Model;

/// An attribute of a start tag or an empty tag: its name, and its value without references.
#[derive(Drop)]
pub struct Attribute {
    name: Text,
    value: Text,
}

impl Model for Attribute {
    ghost Value = { AttributeOf };

    ghost view = { λ a. record { name = a.name; value = a.value } };
}

impl Attribute {
    /// The attribute of this name with this value.
    pub fn new(name: Text, value: Text) -> Self
        ensures { result ≡ record { name = name; value = value } }
    {
        Attribute { name, value }
    }

    /// Its name.
    pub fn name(&self) -> &Text
        ensures { result.now ≡ self.now.name }
    {
        &self.name
    }

    /// Its value: the characters that what stands in quotes stands for.
    pub fn value(&self) -> &Text
        ensures { result.now ≡ self.now.value }
    {
        &self.value
    }
}
