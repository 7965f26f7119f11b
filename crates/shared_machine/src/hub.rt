//! The hub.
ghost use Rattle.std.specs.Prelude.{◌≡◌, ◌≢◌, ℕ, List, [], IfOk, IfErr, IsOk};
ghost use Rattle.shared_machine.specs.History.{StartsWith, calls_by, IsLegalFrom, Reaches};
ghost use Rattle.shared_machine.specs.Passes.{IsPassOf, Follows};
ghost use Rattle.shared_machine.specs.declared.entry.Entry.{Entry};

use crate::bells::Bells;
use crate::machine::{Machine, NoMemory, StepRelation};
use crate::meeting::{meet_seats, split_seat_off};
use crate::pass::Pass;
use crate::rule::HubTable;
use crate::table::{close_table, open_table};
use crate::ticket::wait_for_turn;
use crate::turn::call_in_turn;
use std::alloc::Global;
use std::marker::Model;
use std::sync::Wait;

/// A machine that threads share, with a rest `D` of which no contract speaks. Each call is one turn of a ticket lock:
/// callers are served in the order of their tickets, one at a time.
#[derive(Drop)]
pub struct Hub<M: StepRelation, D: Drop = ()> {
    table: HubTable<M, D>,
    bells: Bells,
}

impl<M: StepRelation, D: Drop> Model for Hub<M, D> {
    ghost use Rattle.std.specs.Prelude.{◌≡◌};
    ghost use Rattle.shared_machine.specs.Passes.{Opening};

    ghost Value = { Opening (M × D) };

    ghost view = { λ h. record { hub = h.table.shared.table_id; start = h.table.shared.key.value } };

    ghost invariant = { λ h. (h.table.shared.table_id.words ≡ 3) × (h.table.shared.table_id.slots ≡ 1) };
}

impl<M: Machine<D>, D: Drop> Hub<M, D> {
    /// A hub round a machine and its rest, and its first pass, which has seen no call yet. `NoMemory` comes where
    /// there is no memory for the hub; the machine is then dropped.
    pub fn new(alloc: Global, machine: (M, D)) -> Result<(Hub<M, D>, Pass<M, D>), NoMemory>
        ensures { IfOk result (λ r. (r.0.start ≡ machine) × IsPassOf r.0 r.1 × (r.1.seen ≡ [])) }
    {
        let bells = Bells::new(alloc)?;
        let (table, seat) = open_table(alloc, machine)?;
        Ok((Hub { table, bells }, Pass { seat }))
    }

    /// One more pass, for another caller. It has seen what the old one had seen, has a caller's number of its own, and
    /// has made no call. It takes no memory and is never refused.
    pub fn split(&self, pass: &mut Pass<M, D>) -> Result<Pass<M, D>, NoMemory>
        requires { IsPassOf self.now pass.old }
        ensures made { IsOk result }
        ensures same { pass.new ≡ pass.old }
        ensures new { IfOk result (λ p. IsPassOf self.now p × (p.seen ≡ pass.old.seen) × (p.caller ≢ pass.old.caller) × (calls_by p.caller p.seen ≡ [])) }
    {
        Ok(Pass {
            seat: split_seat_off(&self.table.shared, &mut pass.seat),
        })
    }

    /// One step of the machine, in one turn of the lock. The answer is the machine's at the end of one legal history,
    /// which begins with all that the pass had seen, and has of this pass's calls just those made, each once, this one
    /// last. `NoMemory` comes where the machine's step answered it; it is no entry, and the pass is as it was.
    /// The call waits while other callers have their turns.
    pub fn call<R: Wait>(
        &self,
        rt: &R,
        pass: &mut Pass<M, D>,
        event: M::Event,
    ) -> Result<M::Answer, NoMemory>
        requires { IsPassOf self.now pass.old }
        ensures pass { IsPassOf self.now pass.new × (pass.new.caller ≡ pass.old.caller) }
        ensures ok { IfOk result (λ a. Follows M.steps M.refusal M.decks_left self.now.start.0 pass.old.caller pass.old.seen event a pass.new.seen) }
        ensures err { IfErr result (λ _. pass.new ≡ pass.old) }
    {
        let top = &self.table.shared;
        let ticket = wait_for_turn(rt, top, &self.bells, &mut pass.seat);
        call_in_turn(top, &self.bells, &mut pass.seat, ticket, event)
    }

    /// Brings two passes together: both have then seen one legal history, which begins with what each had seen. It
    /// takes no memory and is never refused.
    pub fn meet<R: Wait>(
        &self,
        _rt: &R,
        a: &mut Pass<M, D>,
        b: &mut Pass<M, D>,
    ) -> Result<(), NoMemory>
        requires { IsPassOf self.now a.old × IsPassOf self.now b.old }
        ensures made { IsOk result }
        ensures passes { IsPassOf self.now a.new × IsPassOf self.now b.new × (a.new.caller ≡ a.old.caller) × (b.new.caller ≡ b.old.caller) }
        ensures one { a.new.seen ≡ b.new.seen }
        ensures legal { IsLegalFrom M.steps M.refusal M.decks_left self.now.start.0 a.new.seen }
        ensures first { StartsWith a.new.seen a.old.seen }
        ensures second { StartsWith a.new.seen b.old.seen }
        ensures own { (calls_by a.new.caller a.new.seen ≡ calls_by a.old.caller a.old.seen) × (calls_by b.new.caller b.new.seen ≡ calls_by b.old.caller b.old.seen) }
    {
        meet_seats(&self.table.shared, &mut a.seat, &mut b.seat);
        Ok(())
    }

    /// The machine and its rest, after a legal history that begins with all that the pass had seen and has no further
    /// call of its caller. It takes a turn as `call` does, adds no entry, takes no memory and never refuses.
    pub fn close<R: Wait>(self, rt: &R, pass: Pass<M, D>) -> (M, D)
        requires { IsPassOf self pass }
        ensures { (history : List (Entry M.Event M.Answer)) × StartsWith history pass.seen × (calls_by pass.caller history ≡ calls_by pass.caller pass.seen) × Reaches M.steps M.refusal M.decks_left self.start.0 history result.0 }
    {
        let Pass { seat } = pass;
        let Hub { table, bells } = self;
        close_table(rt, table, &bells, seat)
    }
}
