//! Laws of records, for the crates above: each function does nothing, and its clause is the law.
ghost use Rattle.record_laws.specs.Laws.{BeginningsAreByTable, EndsAreByTable, EndsAreFilled, EndsAsk, FaultsAreExact, MessagesAreByTable, MessagesAreSame, MissingIsByTable, OrderIsByTable, RecordsAreByTable, RowsAreTold, SeenAreFields, TagsAreByTable, TwiceIsByTable};

use mos_grammar::laws::{beginnings_are_read, faults_are_first, messages_are_read};

/// The content of a record is what its table says: its fields in their order and as often as it asks for, elements of other
/// names where it lets them stand, and keys apart.
pub fn records_are_by_table()
    ensures { RecordsAreByTable }
{}

/// The messages of the grammar are those whose records are as their tables say.
pub fn messages_are_same()
    ensures { MessagesAreSame }
{}

/// Just the messages whose records are as their tables say are read, as their values.
pub fn messages_are_by_table()
    ensures { MessagesAreByTable }
{
    messages_are_read();
}

/// Tokens are read exactly where they begin such a message.
pub fn beginnings_are_by_table()
    ensures { BeginningsAreByTable }
{
    beginnings_are_read();
}

/// Behind fields that begin what a table asks for, nothing is wrong with a tag exactly where the fields with its own do.
pub fn tags_are_by_table()
    ensures { TagsAreByTable }
{}

/// Of fields that begin what a table asks for nothing lacks exactly where they fill it.
pub fn ends_are_filled()
    ensures { EndsAreFilled }
{}

/// What stands so far are the fields of all children; in roAck those since the last group, behind the two of its own.
pub fn seen_are_fields()
    ensures { SeenAreFields }
{}

/// The fault of a token is the first kind of the rows that hold of it; where none does, the token fits.
pub fn rows_are_told()
    ensures { RowsAreTold }
{
    faults_are_first();
}

/// The columns that an end tag wants are those that it asks for: all, but in roAck those of a group only where a field of one
/// stands.
pub fn ends_ask()
    ensures { EndsAsk }
{}

/// A tag of a field is a second one exactly where a single field stands already.
pub fn twice_is_by_table()
    ensures { TwiceIsByTable }
{}

/// A tag of a field is out of order exactly where it is no second one and a field of a later column stands.
pub fn order_is_by_table()
    ensures { OrderIsByTable }
{}

/// A tag of a field shows that another is missing exactly where it is neither a second one nor out of order, and that one is
/// the first of an earlier column of which too few stand.
pub fn missing_is_by_table()
    ensures { MissingIsByTable }
{}

/// An end tag shows the first field of which too few stand, and nothing else.
pub fn ends_are_by_table()
    ensures { EndsAreByTable }
{}

/// And it is just this one: of two rows of one kind, that of the part that is looked at first.
pub fn faults_are_exact()
    ensures { FaultsAreExact }
{}
