//! How callers come to know what others have seen.
ghost use Rattle.std.specs.Prelude.{◌≡◌, ◌≢◌, ℕ, List, []};
ghost use Rattle.shared_machine.specs.History.{StartsWith, calls_by, IsLegal};
ghost use Rattle.shared_machine.specs.Turns.{with_received, with_seen, numbered_view};
ghost use Rattle.shared_machine.specs.declared.entry.Entry.{Entry};
ghost use Rattle.shared_machine.specs.declared.turn_state.TurnState.TheVariants.{Idle};

use crate::machine::Machine;
use crate::rule::{COUNT, HubSeat, HubSteps};
use crate::steps::{AdoptHistory, LearnHistory, NumberCaller, ShareHistory};

// The second caller receives what the first has seen.
fn share_history<M: Machine<D>, D: Drop>(
    top: &HubSteps<M, D>,
    from: &mut HubSeat<M, D>,
    to: &mut HubSeat<M, D>,
)
    requires { (from.old.table_id ≡ top.now.table_id) × (to.old.table_id ≡ top.now.table_id) × (top.now.table_id.words ≡ 3) × (from.old.me.0.turn ≡ Idle) × (to.old.me.0.turn ≡ Idle) }
    ensures { (from.new.table_id ≡ from.old.table_id) × (from.new.me ≡ from.old.me) × (to.new.table_id ≡ to.old.table_id) × (to.new.me ≡ (with_received to.old.me.0 from.old.me.0, to.old.me.1)) }
{
    let copy = top.split_seat::<ShareHistory>(from);
    top.join_seat::<ShareHistory>(to, copy);
}

/// A seat that has seen what the old one had seen, under a caller's number that has no call in it.
pub(crate) fn split_seat_off<M: Machine<D>, D: Drop>(
    top: &HubSteps<M, D>,
    seat: &mut HubSeat<M, D>,
) -> HubSeat<M, D>
    requires { (seat.old.table_id ≡ top.now.table_id) × (top.now.table_id.words ≡ 3) × (seat.old.me.0.turn ≡ Idle) }
    ensures same { (seat.new.table_id ≡ seat.old.table_id) × (seat.new.me ≡ seat.old.me) }
    ensures new { (result.table_id ≡ seat.old.table_id) × ((c : ℕ) × (c ≢ seat.old.me.0.caller) × (calls_by c seat.old.me.0.seen ≡ []) × (result.me ≡ (numbered_view seat.old.me.0 c, []))) }
{
    let mut new = top.split_seat::<ShareHistory>(seat);
    top.load::<NumberCaller>(&mut new, COUNT);
    new
}

/// Both callers have then seen one history. No turn is taken: `a` receives what `b` has seen and learns the history so
/// far, and `b` receives and adopts that.
pub(crate) fn meet_seats<M: Machine<D>, D: Drop>(
    top: &HubSteps<M, D>,
    a: &mut HubSeat<M, D>,
    b: &mut HubSeat<M, D>,
)
    requires { (a.old.table_id ≡ top.now.table_id) × (b.old.table_id ≡ top.now.table_id) × (top.now.table_id.words ≡ 3) × (a.old.me.0.turn ≡ Idle) × (b.old.me.0.turn ≡ Idle) }
    ensures tables { (a.new.table_id ≡ a.old.table_id) × (b.new.table_id ≡ b.old.table_id) }
    ensures seen { (later : List (Entry M.Event M.Answer)) × (a.new.me ≡ (with_seen a.old.me.0 later, a.old.me.1)) × (b.new.me ≡ (with_seen b.old.me.0 later, b.old.me.1))
        × StartsWith later a.old.me.0.seen × StartsWith later b.old.me.0.seen × IsLegal (λ x e a y. M.steps x.0 e a y.0) (λ x y. M.refusal x.0 y.0) (λ x. M.decks_left x.0) a.old.me.0.start later
        × (calls_by a.old.me.0.caller later ≡ calls_by a.old.me.0.caller a.old.me.0.seen) × (calls_by b.old.me.0.caller later ≡ calls_by b.old.me.0.caller b.old.me.0.seen) }
{
    share_history(top, b, a);
    top.load::<LearnHistory<M>>(a, COUNT);
    share_history(top, a, b);
    top.load::<AdoptHistory>(b, COUNT);
}
