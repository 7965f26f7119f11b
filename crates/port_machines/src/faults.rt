//! What a command is answered.
ghost use Rattle.std.specs.Prelude.{◌≡◌, IfOk, OnErr, None, false};
ghost use Rattle.machine_answers.specs.Answers.{status_of};
ghost use Rattle.mos_machines.specs.Messages.Status.{Okay, StoreFault};
ghost use Rattle.ncs_core.specs.Commands.{fault_status};
ghost use Rattle.port_machines.specs.Saying.{acked, IsLeft, IsStatusFor, IsTold, IsToldFor, is_store_fault as is_store_fault_of};

use crate::replies::answer_for;
use machine_answers::Status;
use mos_fields::{Id, NoMemory, let_go};
use ncs_core::CommandFault;
use port_events::PortAnswer;
use std::alloc::Global;

// The status of a command that wasn't taken.
fn status_for(fault: CommandFault) -> Result<Status, NoMemory>
    ensures some { IfOk result (λ s. IsStatusFor (fault_status fault) (status_of s)) }
    ensures none { OnErr result (fault_status fault ≡ None) }
{
    match fault {
        CommandFault::Stopped => Ok(Status::Stopped),
        CommandFault::Missing { id } => Ok(Status::Missing(id)),
        CommandFault::AlreadyThere { id } => Ok(Status::AlreadyThere(id)),
        CommandFault::Full { units: _ } => Ok(Status::Full),
        CommandFault::StoreFault => Ok(Status::StoreFault),
        CommandFault::NoMemory => Err(NoMemory),
    }
}

// The roAck that tells it.
fn refused(alloc: Global, ro: &Id, fault: CommandFault) -> Result<PortAnswer, NoMemory>
    ensures { IfOk result (λ a. IsToldFor (fault_status fault) ro.now a) }
{
    let status = status_for(fault)?;
    let told = answer_for(alloc, ro, &status);
    let_go(status);
    told
}

// Whether the keeper failed.
fn is_store_fault(fault: &CommandFault) -> bool
    ensures { result ≡ is_store_fault_of fault.now }
{
    matches!(fault, CommandFault::StoreFault)
}

// The answer to a command that wasn't taken.
fn fault_answer(
    alloc: Global,
    ro: &Id,
    failed: PortAnswer,
    fault: CommandFault,
) -> Result<PortAnswer, NoMemory>
    requires { failed ≡ acked ro.now StoreFault }
    ensures told { IfOk result (λ a. IsToldFor (fault_status fault) ro.now a) }
    ensures err { OnErr result (is_store_fault_of fault ≡ false) }
{
    if is_store_fault(&fault) {
        let_go(fault);
        return Ok(failed);
    }
    let_go(failed);
    refused(alloc, ro, fault)
}

// The answers that are made before a command, since the server isn't as it was after it: to one that is taken, and to a
// failed append.
pub fn prepared(alloc: Global, ro: &Id) -> Result<(PortAnswer, PortAnswer), NoMemory>
    ensures taken { IfOk result (λ p. p.0 ≡ acked ro.now Okay) }
    ensures failed { IfOk result (λ p. p.1 ≡ acked ro.now StoreFault) }
{
    let taken = answer_for(alloc, ro, &Status::Okay)?;
    match answer_for(alloc, ro, &Status::StoreFault) {
        Ok(failed) => Ok((taken, failed)),
        Err(fault) => {
            let_go(taken);
            Err(fault)
        }
    }
}

// The answer to a command.
pub fn command_answer(
    alloc: Global,
    ro: &Id,
    answers: (PortAnswer, PortAnswer),
    outcome: Result<(), CommandFault>,
) -> Result<PortAnswer, NoMemory>
    requires taken { answers.0 ≡ acked ro.now Okay }
    requires failed { answers.1 ≡ acked ro.now StoreFault }
    ensures told { IfOk result (λ a. IsTold outcome ro.now a) }
    ensures err { OnErr result (IsLeft outcome) }
{
    let (taken, failed) = answers;
    match outcome {
        Ok(()) => {
            let_go(failed);
            Ok(taken)
        }
        Err(fault) => {
            let_go(taken);
            fault_answer(alloc, ro, failed, fault)
        }
    }
}
