//! Commands of an editor.
ghost use Rattle.std.specs.Prelude.{◌≡◌, IfOk, OnErr, None, Some};
ghost use Rattle.mos_edits.specs.Entries.{entry_of};
ghost use Rattle.mos_machines.specs.Messages.{status_text};
ghost use Rattle.mos_machines.specs.Values.{edit_message};
ghost use Rattle.mos_values.specs.Sound.{IsSound};
ghost use Rattle.machine_answers.specs.Answers.{status_of};
ghost use Rattle.rundown_log.specs.Memory.{kept as kept_of};
ghost use Rattle.world_scripts.specs.Outcomes.{outcome_of};
ghost use Rattle.world_laws.specs.Outcomes.{Outcome as Outcomes};
ghost use Rattle.world_stage.specs.Commanding.{IsCommanded, IsToldFor, IsToldOf};
ghost use Rattle.ncs_core.specs.Commands.{fault_status as fault_status_of};

use machine_answers::Status;
use mos_edits::Edit;
use mos_fields::{NoMemory, let_go};
use ncs_core::{CommandFault, Ncs};
use rundown_log::MemKeeper;
use std::alloc::Global;
use world_scripts::Outcome;

/// A command that was answered so.
fn told_status(alloc: Global, status: &Status) -> Result<Outcome, NoMemory>
    ensures { IfOk result (λ o. outcome_of o ≡ Outcomes.Command (status_text (status_of status.now))) }
{
    Ok(Outcome::Command {
        text: status.text(alloc)?.into_text(),
    })
}

/// The status of a command that wasn't taken.
fn fault_status(fault: CommandFault) -> Result<Status, NoMemory>
    ensures some { IfOk result (λ s. IsToldFor (fault_status_of fault) (status_of s)) }
    ensures none { OnErr result (fault_status_of fault ≡ None) }
{
    match fault {
        CommandFault::Stopped => Ok(Status::Stopped),
        CommandFault::Missing { id } => Ok(Status::Missing(id)),
        CommandFault::AlreadyThere { id } => Ok(Status::AlreadyThere(id)),
        CommandFault::Full { units: _ } => Ok(Status::Full),
        CommandFault::StoreFault => Ok(Status::StoreFault),
        CommandFault::NoMemory => Err(NoMemory),
    }
}

/// What is told of a status, which is let go.
fn told_once(alloc: Global, status: Status) -> Result<Outcome, NoMemory>
    ensures { IfOk result (λ o. outcome_of o ≡ Outcomes.Command (status_text (status_of status))) }
{
    let told = told_status(alloc, &status);
    let_go(status);
    told
}

/// What is told of a command that wasn't taken.
fn refused(alloc: Global, fault: CommandFault) -> Result<Outcome, NoMemory>
    ensures { IfOk result (λ o. IsToldOf (fault_status_of fault) (outcome_of o)) }
{
    match fault_status(fault) {
        Ok(status) => Ok(told_once(alloc, status)?),
        Err(_) => Err(NoMemory),
    }
}

/// A law of the server over a keeper in memory: the entries that are kept are those of the keeper.
fn keeps(ncs: &Ncs<MemKeeper>)
    ensures { ncs.now.kept ≡ Some (kept_of ncs.now.keeper) }
{
    let _keeper = ncs.keeper();
}

/// The server takes a command.
pub fn command(alloc: Global, ncs: &mut Ncs<MemKeeper>, edit: &Edit) -> Result<Outcome, NoMemory>
    requires { IsSound (edit_message edit.now) }
    ensures { IfOk result (λ o. IsCommanded ncs.old ncs.new (entry_of edit.now) o) }
{
    match ncs.command(edit) {
        Ok(()) => {
            keeps(ncs);
            Ok(told_once(alloc, Status::Okay)?)
        }
        Err(fault) => {
            keeps(ncs);
            Ok(refused(alloc, fault)?)
        }
    }
}
