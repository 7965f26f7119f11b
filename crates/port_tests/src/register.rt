//! A register of stories, which the tests share.
ghost use Rattle.std.specs.Prelude.{◌≡◌, ◌+◌, ℕ, [], ◌∷◌, ◌++◌, ◌&&◌, ◌||◌, not, cond, nat_eq, refl};
ghost use Rattle.std.specs.List.{list_any};
ghost use Rattle.std.proofs.Common.{◌∙◌};

use shared_machine::{Machine, NoMemory, StepRelation};
use std::alloc::Global;

/// To insert a story, or only to look for it.
#[derive(Drop, Clone, Copy)]
pub struct Request {
    pub story: u64,
    pub inserts: bool,
}

/// Whether the story was inserted, and whether it stands in the register after the call.
#[derive(Debug, Drop, Clone, Copy, PartialEq, Eq)]
pub struct Reply {
    pub inserted: bool,
    pub stands: bool,
}

/// Stories in the order in which they came, each once. It answers `NoMemory` at one attempt.
#[derive(Drop)]
pub struct Register {
    pub stories: Vec<u64>,

    /// The calls that were answered.
    pub answered: u64,

    /// The attempts until one is refused.
    pub until_refusal: u64,
}

impl Register {
    pub fn new(alloc: Global, until_refusal: u64) -> Register {
        Register {
            stories: Vec::new(alloc),
            answered: 0,
            until_refusal,
        }
    }
}

impl StepRelation for Register {
    type Event = Request;

    type Answer = Reply;

    ghost steps = { λ s request reply t. let known = list_any (λ y. nat_eq y request.story) s.stories.items in (reply.inserted ≡ (request.inserts && not known)) × (reply.stands ≡ (known || reply.inserted)) × (t.stories.items ≡ cond reply.inserted (s.stories.items ++ request.story ∷ []) s.stories.items) × (t.answered ≡ s.answered + 1) };

    ghost refusal = { λ s t. (t.stories.items ≡ s.stories.items) × (t.answered ≡ s.answered) };

    ghost decks_left = { λ _. 0 };
}

impl Machine<()> for Register {
    fn step(&mut self, _rest: &mut (), request: &Request) -> Result<Reply, NoMemory> {
        if self.answered == u64::MAX {
            return Err(NoMemory);
        }
        if self.until_refusal == 0 {
            self.until_refusal = u64::MAX;
            return Err(NoMemory);
        }
        self.until_refusal -= 1;
        let known = self.stories.contains(&request.story);
        let inserted = request.inserts && !known;
        if inserted {
            let Ok(()) = self.stories.push(request.story) else {
                return Err(NoMemory);
            };
        }
        self.answered += 1;
        Ok(Reply {
            inserted,
            stands: known || inserted,
        })
    }

    ghost refusal_reflexive = { λ x. (refl, refl) };

    ghost refusal_transitive = { λ x y z p q. (q.0 ∙ p.0, q.1 ∙ p.1) };
}
