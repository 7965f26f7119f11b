//! Commands: the edits that an editor gives.
ghost use Rattle.std.specs.Prelude.{◌≡◌, [], ◌∷◌, ◌++◌, ◌≤◌, None, false, OnOk, OnErr};
ghost use Rattle.mos_edits.specs.Entries.{acceptance, entry_of, entry_count};
ghost use Rattle.mos_machines.specs.Server.{peer_given};
ghost use Rattle.mos_machines.specs.Values.{edit_message};
ghost use Rattle.mos_values.specs.Sound.{IsSound};
ghost use Rattle.rundown_log.specs.Keeping.{Appends, LeavesCertain, LeavesSo};
ghost use Rattle.script_numbers.specs.Numbers.{AreNumbers};
ghost use Rattle.ncs_core.specs.Commands.{IsCommandStep, HasCause, LeavesAfter, LeavesKeeper, is_failed as is_failed_of, command_fault_of};
ghost use Rattle.ncs_core.specs.State.{ncs_of, devices_of, states};

use crate::accepting::{accept_edit, undo};
use crate::fault::CommandFault;
use crate::giving::{give_all, is_whole, reserve_all};
use crate::ncs::Ncs;
use mos_edits::Edit;
use mos_fields::let_go;
use rundown_log::{Journal, KeepFault, Keeper, edit_ro};
use script_numbers::ScriptNumbers;
use server_peer::Peer;

// Keeps an accepted edit, and gives it to the devices.
fn keep_and_give<K: Keeper>(
    peers: &mut [Peer],
    journal: &mut Journal,
    scripts: &mut ScriptNumbers,
    keeper: &mut K,
    edit: &Edit,
) -> Result<(), KeepFault>
    requires sound { IsSound (edit_message edit.now) }
    requires scripts { AreNumbers journal.old scripts.old }
    requires accepted { acceptance journal.old (entry_of edit.now) ≡ None }
    ensures appends { Appends (K.kept keeper.old) (K.kept keeper.new) (K.faults keeper.old) (K.faults keeper.new) (entry_of edit.now) result }
    ensures certainty { LeavesCertain (K.kept keeper.old) (K.kept keeper.new) (K.certainty keeper.old) (K.certainty keeper.new) (entry_of edit.now) result }
    ensures leaves { LeavesSo K.appended keeper.old keeper.new (entry_of edit.now) result }
    ensures rises { K.faults keeper.old ≤ K.faults keeper.new }
    ensures journal { OnOk result (journal.new ≡ journal.old ++ entry_of edit.now ∷ []) }
    ensures peers { OnOk result (states peers.new ≡ (λ d. peer_given (entry_of edit.now) (entry_count journal.old (entry_of edit.now).ro) (states peers.old d))) }
    ensures journal_err { OnErr result (journal.new ≡ journal.old) }
    ensures peers_err { OnErr result (states peers.new ≡ states peers.old) }
    ensures scripts { AreNumbers journal.new scripts.new }
{
    let ro = edit_ro(edit);
    let whole = is_whole(edit);
    let number = journal.entry_count(ro) as u64;
    reserve_all(peers, ro, whole)?;
    scripts.reserve(edit)?;
    journal.keep(keeper, edit)?;
    give_all(peers, ro, whole, number);
    scripts.accept(edit, number);
    Ok(())
}

// Whether a keeper failed.
fn is_failed(fault: KeepFault) -> bool
    ensures { result ≡ is_failed_of fault }
{
    match fault {
        KeepFault::Failed => true,
        KeepFault::NoMemory => false,
    }
}

// What a command answers where its edit wasn't kept.
fn command_fault(fault: KeepFault) -> CommandFault
    ensures { result ≡ command_fault_of fault }
{
    match fault {
        KeepFault::Failed => CommandFault::StoreFault,
        KeepFault::NoMemory => CommandFault::NoMemory,
    }
}

impl<K: Keeper> Ncs<K> {
    // Takes an edit, where no append of this run failed.
    fn take(&mut self, edit: &Edit) -> Result<(), CommandFault>
        requires running { self.old.server.stopped ≡ false }
        requires sound { IsSound (edit_message edit.now) }
        ensures step { IsCommandStep (ncs_of self.old) (entry_of edit.now) result (ncs_of self.new) }
        ensures cause { HasCause (ncs_of self.old) (entry_of edit.now) self.new.server.faults result }
        ensures leaves { LeavesAfter (ncs_of self.old) (ncs_of self.new) self.old.kept self.new.kept (entry_of edit.now) result }
        ensures keeper { LeavesKeeper K.appended self.old.keeper self.new.keeper (entry_of edit.now) result }
        ensures devices { devices_of self.new ≡ devices_of self.old }
    {
        self.orders.has_ascending_ids();
        let units = self.orders.units();
        let former = match accept_edit(self.journal.allocator(), &mut self.orders, edit) {
            Ok(former) => former,
            Err(fault) => return Err(fault),
        };
        match keep_and_give(
            &mut self.peers,
            &mut self.journal,
            &mut self.scripts,
            &mut self.keeper,
            edit,
        ) {
            Ok(()) => {
                let_go(former);
                Ok(())
            }
            Err(fault) => {
                undo(&mut self.orders, edit_ro(edit), former, units);
                self.stopped = is_failed(fault);
                Err(command_fault(fault))
            }
        }
    }

    /// Takes an edit, where it is accepted: it is kept, stands at the end of the journal, and is given to the devices.
    ///
    /// `Stopped` comes exactly where an earlier append of this run failed. Then it is looked whether the edit is accepted:
    /// `Missing` and `AlreadyThere` come exactly where it has that fault on the order that is there, `Full` exactly where
    /// the list of the order would pass 8,000,000 code units, or else that of all orders 8,100,000, or else the edit is a
    /// roStorySend of more than 8,000,000. Then the edit is kept:
    /// `StoreFault` comes only where the keeper failed and counted that, and whether the edit is kept isn't known then; the
    /// server takes no command until it is started again, and nothing else changes. `NoMemory` may come in place of every
    /// answer but `Stopped` and `StoreFault`. After every refusal but `StoreFault` the state is as it was.
    ///
    /// The time depends on the order that the edit names and on the numbers of orders and devices, not on the journal.
    pub fn command(&mut self, edit: &Edit) -> Result<(), CommandFault>
        requires { IsSound (edit_message edit.now) }
        ensures step { IsCommandStep (ncs_of self.old) (entry_of edit.now) result (ncs_of self.new) }
        ensures cause { HasCause (ncs_of self.old) (entry_of edit.now) self.new.server.faults result }
        ensures leaves { LeavesAfter (ncs_of self.old) (ncs_of self.new) self.old.kept self.new.kept (entry_of edit.now) result }
        ensures keeper { LeavesKeeper K.appended self.old.keeper self.new.keeper (entry_of edit.now) result }
        ensures devices { devices_of self.new ≡ devices_of self.old }
    {
        if self.stopped {
            return Err(CommandFault::Stopped);
        }
        self.take(edit)
    }
}
