//! The first words of edits.
ghost use Rattle.std.specs.Prelude.{◌≡◌};
ghost use Rattle.mos_fields.specs.Values.{word_of};
ghost use Rattle.script_edits.specs.Edits.{edit_verb_of, edit_verbs, edit_word};

use crate::words::is_word;

/// The first word of an edit.
#[derive(Clone, Copy, Debug, PartialEq, Eq)]
pub enum EditVerb {
    Create,
    Replace,
    Delete,
    Meta,
    Ready,
    NotReady,
    Script,
    Insert,
    Sub,
    Move,
    Drop,
    Swap,
    InsertItems,
    SubItem,
    MoveItems,
    DropItems,
    SwapItems,
}

/// The first words of all rows.
const EDIT_VERBS: [EditVerb; 17] = [
    EditVerb::Create,
    EditVerb::Replace,
    EditVerb::Delete,
    EditVerb::Meta,
    EditVerb::Ready,
    EditVerb::NotReady,
    EditVerb::Script,
    EditVerb::Insert,
    EditVerb::Sub,
    EditVerb::Move,
    EditVerb::Drop,
    EditVerb::Swap,
    EditVerb::InsertItems,
    EditVerb::SubItem,
    EditVerb::MoveItems,
    EditVerb::DropItems,
    EditVerb::SwapItems,
];

/// The first of these with this word.
fn find_in(verbs: &[EditVerb], word: &[u8]) -> Option<EditVerb>
    ensures { result ≡ word_of edit_word verbs.now word.now }
{
    for &verb in verbs {
        if is_word(word, verb.word().as_bytes()) {
            return Some(verb);
        }
    }
    None
}

impl EditVerb {
    /// The row that begins with this word.
    #[tactic(auto, unfolding(crate::specs::Edits::edit_verb_of))]
    pub fn find(word: &[u8]) -> Option<Self>
        ensures { result ≡ edit_verb_of word.now }
    {
        find_in(&EDIT_VERBS, word)
    }

    /// The word.
    fn word(self) -> &'static str
        ensures { result.now ≡ edit_word self }
    {
        match self {
            EditVerb::Create => "create",
            EditVerb::Replace => "replace",
            EditVerb::Delete => "delete",
            EditVerb::Meta => "meta",
            EditVerb::Ready => "ready",
            EditVerb::NotReady => "notready",
            EditVerb::Script => "script",
            EditVerb::Insert => "insert",
            EditVerb::Sub => "sub",
            EditVerb::Move => "move",
            EditVerb::Drop => "drop",
            EditVerb::Swap => "swap",
            EditVerb::InsertItems => "iinsert",
            EditVerb::SubItem => "isub",
            EditVerb::MoveItems => "imove",
            EditVerb::DropItems => "idrop",
            EditVerb::SwapItems => "iswap",
        }
    }
}
