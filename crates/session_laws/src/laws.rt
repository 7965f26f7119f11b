//! Which events a connection has, by the messages on it.
ghost use Rattle.std.specs.Prelude.{◌≡◌, ℕ, ◌↔◌, Bool, false, IsTrue, List, [], ◌∷◌, ◌++◌, map};
ghost use Rattle.mos_values.specs.declared.message.Envelope.{Envelope};
ghost use Rattle.port_events.specs.declared.event.What.TheVariants.{EndedIn};
ghost use Rattle.port_session.specs.Answering.{LastFails};
ghost use Rattle.port_session.specs.Events.{event};
ghost use Rattle.port_session.specs.Messages.{IsFor};
ghost use Rattle.port_session.specs.Serving.{Call, Serves};
ghost use Rattle.port_session.specs.declared.end.End.TheVariants.{Stale, Unasked, WriteFault};
ghost use Rattle.port_session.specs.declared.port.Port.{Port};
ghost use Rattle.session_laws.specs.Accepted.{IsCut, accepted, is_for};

/// The events of a connection whose messages were all served are those of an accepted connection with these messages:
/// Accepted directly before the first message for this end, Heard of each such message in order, and EndedIn last.
pub fn served_is_accepted()
    ensures names { (p : Port) (e : Envelope) → IsTrue (is_for p e) ↔ IsFor p e }
    ensures served { (p : Port) (messages : List Envelope) (calls : List Call) (out : List ℕ) (on : Bool) → Serves p false messages calls out on → map (λ c. c.0) calls ++ event p EndedIn ∷ [] ≡ accepted p messages }
{}

/// So are those of a connection that ended with its last message, whose answer couldn't be written or which was answered
/// Stale or Unasked; but where Accepted itself was answered so, the first message for this end isn't heard.
pub fn ended_early_is_accepted()
    ensures unwritten { (p : Port) (messages : List Envelope) (calls : List Call) (out : List ℕ) (n m : ℕ) → LastFails p messages calls out n m WriteFault → map (λ c. c.0) calls ++ event p EndedIn ∷ [] ≡ accepted p messages }
    ensures stale { (p : Port) (messages : List Envelope) (calls : List Call) (out : List ℕ) (n m : ℕ) → LastFails p messages calls out n m Stale → IsCut p messages calls }
    ensures unasked { (p : Port) (messages : List Envelope) (calls : List Call) (out : List ℕ) (n m : ℕ) → LastFails p messages calls out n m Unasked → IsCut p messages calls }
{}
