//! What the grammar says of the events that are read here.
ghost use Rattle.std.specs.Prelude.{List, ℕ};
ghost use Rattle.std.specs.List.{AllByRecursion};
ghost use Rattle.mos_fields.specs.Characters.{Text};
ghost use Rattle.mos_tables.specs.declared.table.Table.{Table as Table_};
ghost use Rattle.mos_tables.specs.Events.{Event};
ghost use Rattle.mos_grammar.specs.Tokens.{Token};
ghost use Rattle.mos_grammar.specs.Records.{IsRecord};
ghost use Rattle.mos_lexer.specs.Lexing.{WritesTokens};
ghost use Rattle.mos_cursor.specs.Accepted.{IsWritten, IsWhole};

/// The value of a record that the grammar accepts, whose tags are written as tags are, is a start, the events of an
/// accepted record, and an end.
pub fn whole_record()
    ensures { (t : Table_) (n : Text) (v : List Event) (ts : List Token) → IsRecord t n v ts → AllByRecursion IsWritten ts → IsWhole t n v }
{}

/// The tags of tokens that characters spell are written as tags are.
pub fn written_tags()
    ensures { (ts : List Token) (c : List ℕ) → WritesTokens ts c → AllByRecursion IsWritten ts }
{}
