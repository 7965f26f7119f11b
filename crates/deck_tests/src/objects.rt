//! Tables of objects.

use mos_fields::{FieldFault, Id, Text, let_go};
use mos_values::{MosObj, Unreads};
use object_table::{ObjectTable, TableFault};
use std::alloc::Global;
use std::test::Fail;

// A text of so many quotation marks and then of so many letters. A mark is six code units in an encoding, a letter is one.
fn text_of(alloc: Global, marks: usize, letters: usize) -> Result<Text, FieldFault> {
    let mut chars = Vec::new(alloc);
    for _ in 0..marks {
        chars.push('"')?;
    }
    for _ in 0..letters {
        chars.push('x')?;
    }
    Text::try_new(alloc, &chars)
}

// An object of one letter with this group, whose status is that text where it isn't empty. Without a status it has 54 code units
// more than its group.
fn object(alloc: Global, letter: char, group: Text, status: &str) -> Result<MosObj, FieldFault> {
    let id = Id::try_new(alloc, &[letter])?;
    let status = status_of(alloc, status)?;
    Ok(MosObj {
        id,
        slug: None,
        mos_abstract: None,
        group: Some(group),
        obj_type: None,
        time_base: None,
        rev: None,
        dur: None,
        status,
        air: None,
        obj_paths: None,
        created_by: None,
        created: None,
        changed_by: None,
        changed: None,
        description: None,
        metadata: Unreads::new(alloc),
        others: Unreads::new(alloc),
    })
}

fn status_of(alloc: Global, status: &str) -> Result<Option<Text>, FieldFault> {
    if status.is_empty() {
        return Ok(None);
    }
    let chars = status.chars().collect::<Vec<char>>(alloc)?;
    Ok(Some(Text::try_new(alloc, &chars)?))
}

fn take(table: &mut ObjectTable, object: MosObj) -> Result<(), TableFault> {
    let taken = table.take(&object);
    let_go(object);
    taken
}

// Takes objects, each by its letter and the length of its group, which is a digit. A `-` before a letter and a digit removes the
// object.
fn take_words(alloc: Global, table: &mut ObjectTable, words: &str) -> Result<(), Fail> {
    for word in words.split(' ') {
        take_word(alloc, table, word)?;
    }
    Ok(())
}

fn take_word(alloc: Global, table: &mut ObjectTable, word: &str) -> Result<(), Fail> {
    let mut deleted = false;
    let mut letter = '?';
    let mut count = 0;
    for c in word.chars() {
        match c {
            '-' => deleted = true,
            '1' => count = 1,
            '2' => count = 2,
            '3' => count = 3,
            _ => letter = c,
        }
    }
    let group = text_of(alloc, 0, count)?;
    let status = if deleted { "DELETED" } else { "OK" };
    take(table, object(alloc, letter, group, status)?)?;
    Ok(())
}

// The letters of the objects, each with the length of its group behind it.
fn letters_of(alloc: Global, table: &ObjectTable) -> Result<String, Fail> {
    let mut chars = Vec::new(alloc);
    for place in 0..table.len() {
        if let Some(object) = table.at(place) {
            push_letters(&mut chars, object)?;
        }
    }
    Ok(chars.iter().collect::<String>(alloc)?)
}

fn push_letters(chars: &mut Vec<char>, object: &MosObj) -> Result<(), Fail> {
    object.id.push_to(chars)?;
    if let Some(group) = &object.group {
        match group.len() {
            1 => chars.push('1')?,
            2 => chars.push('2')?,
            _ => chars.push('3')?,
        }
    }
    Ok(())
}

fn take_and_list(alloc: Global, table: &mut ObjectTable, words: &str) -> Result<String, Fail> {
    take_words(alloc, table, words)?;
    letters_of(alloc, table)
}

// What a table has when it took these.
fn letters_after(alloc: Global, words: &str) -> Result<String, Fail> {
    let mut table = ObjectTable::new(alloc);
    let letters = take_and_list(alloc, &mut table, words);
    let_go(table);
    letters
}

#[test]
fn the_last_of_each_objid_stands_where_the_first_stood(rt: HostRuntime) -> Result<(), Fail> {
    let alloc = rt.alloc();
    for (words, left) in [
        ("A1", "A1"),
        ("A1 B1 C1", "A1B1C1"),
        ("A1 B1 C1 B2", "A1B2C1"),
        ("A1 B1 C1 -B2", "A1C1"),
        ("A1 B1 -A1 A2", "B1A2"),
        ("A1 -B1", "A1"),
        ("A1 -A1 -A1", ""),
    ] {
        assert_eq!(rt; letters_after(alloc, words)?.as_str(), left, "{words}");
    }
    Ok(())
}

// Notes what is found by each of these letters: the letter and the length of the group, or a question mark.
fn note_found(
    alloc: Global,
    table: &ObjectTable,
    letters: &str,
    notes: &mut Vec<char>,
) -> Result<(), Fail> {
    for letter in letters.chars() {
        let id = Id::try_new(alloc, &[letter])?;
        match table.get(&id) {
            Some(object) => push_letters(notes, object)?,
            None => notes.push('?')?,
        }
    }
    Ok(())
}

fn take_and_find(
    alloc: Global,
    table: &mut ObjectTable,
    notes: &mut Vec<char>,
) -> Result<(), Fail> {
    take_words(alloc, table, "A1 B2")?;
    note_found(alloc, table, "BCA", notes)
}

#[test]
fn an_object_is_found_by_its_objid(rt: HostRuntime) -> Result<(), Fail> {
    let alloc = rt.alloc();
    let mut notes = Vec::new(alloc);
    let mut table = ObjectTable::new(alloc);
    let noted = take_and_find(alloc, &mut table, &mut notes);
    let_go(table);
    noted?;
    assert_eq!(rt; notes.as_slice(), ['B', '2', '?', 'A', '1'].as_slice());
    Ok(())
}

// The letters of a copy, and whether it has as many code units.
fn copied(alloc: Global, table: &ObjectTable) -> Result<(String, bool), Fail> {
    let copy = table.try_clone()?;
    let letters = letters_of(alloc, &copy);
    let same = copy.units() == table.units();
    let_go(copy);
    Ok((letters?, same))
}

// How many objects the list has.
fn listed(table: &ObjectTable) -> Result<usize, Fail> {
    let list = table.list_all()?;
    let count = list.len();
    let_go(list);
    Ok(count)
}

fn take_and_copy(alloc: Global, table: &mut ObjectTable) -> Result<(String, bool, usize), Fail> {
    take_words(alloc, table, "A1 B2 C3")?;
    let (letters, same) = copied(alloc, table)?;
    Ok((letters, same, listed(table)?))
}

#[test]
fn a_copy_and_a_list_have_the_same_objects(rt: HostRuntime) -> Result<(), Fail> {
    let mut table = ObjectTable::new(rt.alloc());
    let copied = take_and_copy(rt.alloc(), &mut table);
    let_go(table);
    let (letters, same, listed) = copied?;
    assert_eq!(rt; letters.as_str(), "A1B2C3");
    assert!(rt; same);
    assert_eq!(rt; listed, 3);
    Ok(())
}

// Takes thirteen objects, from A to M, of 600,054 code units each.
fn fill(alloc: Global, table: &mut ObjectTable) -> Result<(), Fail> {
    let mut object = object(alloc, 'A', text_of(alloc, 100_000, 0)?, "")?;
    let filled = take_by_letters(alloc, table, &mut object, "ABCDEFGHIJKLM");
    let_go(object);
    filled
}

// Takes an object again and again, each time by another letter.
fn take_by_letters(
    alloc: Global,
    table: &mut ObjectTable,
    object: &mut MosObj,
    letters: &str,
) -> Result<(), Fail> {
    for letter in letters.chars() {
        object.id = Id::try_new(alloc, &[letter])?;
        table.take(object)?;
    }
    Ok(())
}

// What a table answers to such an object, and how many code units it has then.
fn answer_to(table: &mut ObjectTable, object: MosObj) -> (Result<(), TableFault>, u64) {
    let answer = take(table, object);
    (answer, table.units())
}

// The answers of a full table: to an object that passes the limit by one code unit, to one that comes up to it, to a longer one
// in the place of another, and to a removal.
fn answers(
    alloc: Global,
    table: &mut ObjectTable,
) -> Result<[(Result<(), TableFault>, u64); 4], Fail> {
    fill(alloc, table)?;
    let past = answer_to(table, object(alloc, 'N', text_of(alloc, 33_203, 2)?, "")?);
    let at = answer_to(table, object(alloc, 'N', text_of(alloc, 33_203, 1)?, "")?);
    let longer = answer_to(table, object(alloc, 'A', text_of(alloc, 100_000, 1)?, "")?);
    let removed = answer_to(table, object(alloc, 'A', text_of(alloc, 0, 1)?, "DELETED")?);
    Ok([past, at, longer, removed])
}

#[test]
fn a_table_is_full_exactly_past_the_limit(rt: HostRuntime) -> Result<(), Fail> {
    let mut table = ObjectTable::new(rt.alloc());
    let answers = answers(rt.alloc(), &mut table);
    let_go(table);
    let full = Err(TableFault::Full { units: 8_000_001 });
    assert_eq!(rt;
        answers?,
        [
            (full, 7_800_727),
            (Ok(()), 8_000_000),
            (full, 8_000_000),
            (Ok(()), 7_399_946)
        ]
    );
    Ok(())
}
