//! What is told of the messages of a stream.
ghost use Rattle.std.specs.Prelude.{◌≡◌, ◌++◌, ◌∷◌, [], ℕ, List, IfOk};
ghost use Rattle.mos_lexer.specs.Units.{Found as FoundOf};
ghost use Rattle.mos_lexer.specs.declared.kind.Kind.{Kind as KindOf};
ghost use Rattle.mos_decoder.specs.Bytes.{IsReadValue, found_of};

use mos_fields::NoMemory;
use mos_lexer::Kind;
use mos_reader::Found;
use std::alloc::Global;

/// Tells something of each message of a stream, and of its end.
///
/// Its ghost state is what may have been told of messages so far, what is told behind the last one of so many messages and
/// code units, and what is told of a rejection at a place.
pub trait Teller {
    ghost told: { Self → List FoundOf → List ℕ → Type 0 };

    ghost last: { Self → ℕ → ℕ → List ℕ };

    ghost refusal: { Self → ℕ → KindOf → List ℕ };

    /// What is told of the next message, in bytes. It has to be a message that was read.
    fn tell(&mut self, alloc: Global, found: Found) -> Result<Vec<u8>, NoMemory>
        requires { IsReadValue found.value }
        ensures { (before : List FoundOf) (text : List ℕ) → told self.old before text → IfOk result (λ more. told self.new (before ++ found_of found ∷ []) (text ++ more.items)) };

    /// What is told behind the last of so many messages, where there were so many code units.
    fn tell_last(&self, alloc: Global, messages: usize, units: usize) -> Result<Vec<u8>, NoMemory>
        ensures { IfOk result (λ text. text.items ≡ last self.now messages units) };

    /// What is told of a rejection at a place, with its kind.
    fn tell_refusal(&self, alloc: Global, place: usize, kind: Kind) -> Result<Vec<u8>, NoMemory>
        ensures { IfOk result (λ text. text.items ≡ refusal self.now place kind) };
}
