//! The rows of made events.
ghost use Rattle.std.specs.Prelude.{◌≡◌, ◌<◌};
ghost use Rattle.world_scripts.specs.Made.{made_verb};

/// What a made event does.
#[derive(Clone, Copy, Debug, PartialEq, Eq)]
pub enum MadeVerb {
    CreateOrder,
    InsertStory,
    SwapStories,
    MoveStory,
    DropStory,
    ReadyOrder,
    Open,
    Accept,
    Read,
    Back,
    Dial,
    Admit,
    Ask,
    Hear,
    Got,
    Send,
    Cut,
    Rare,
}

/// What each row does.
const MADE_VERBS: [MadeVerb; 24] = [
    MadeVerb::CreateOrder,
    MadeVerb::InsertStory,
    MadeVerb::SwapStories,
    MadeVerb::MoveStory,
    MadeVerb::DropStory,
    MadeVerb::ReadyOrder,
    MadeVerb::Open,
    MadeVerb::Accept,
    MadeVerb::Read,
    MadeVerb::Read,
    MadeVerb::Back,
    MadeVerb::Back,
    MadeVerb::Dial,
    MadeVerb::Admit,
    MadeVerb::Ask,
    MadeVerb::Ask,
    MadeVerb::Hear,
    MadeVerb::Hear,
    MadeVerb::Got,
    MadeVerb::Got,
    MadeVerb::Send,
    MadeVerb::Send,
    MadeVerb::Cut,
    MadeVerb::Rare,
];

/// What the row of this number does.
pub fn verb_at(row: u64) -> MadeVerb
    requires { row < 24 }
    ensures { result ≡ made_verb row }
{
    MADE_VERBS[row as usize]
}
