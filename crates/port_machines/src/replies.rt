//! The roAcks that the ports answer.
ghost use Rattle.std.specs.Prelude.{◌≡◌, [], IfOk};
ghost use Rattle.std.specs.Option.{option_copied};
ghost use Rattle.mos_machines.specs.Messages.{message_ro as message_ro_of};
ghost use Rattle.mos_machines.specs.Messages.Status.{NotSupported};
ghost use Rattle.mos_machines.specs.Values.{seen};
ghost use Rattle.machine_answers.specs.Answers.{status_of};
ghost use Rattle.port_replies.specs.Ports.{order_said};
ghost use Rattle.port_events.specs.declared.answer.PortAnswer.TheVariants as answers;
ghost use Rattle.port_machines.specs.Saying.{acked};

use machine_answers::{Status, acknowledgement};
use mos_fields::{Id, NoMemory, OptId};
use mos_values::{Boxed, Message, message_ro, named};
use port_events::PortAnswer;
use running_order::Order;
use std::alloc::Global;

// A roAck.
fn answer(alloc: Global, ro: OptId, status: &Status) -> Result<PortAnswer, NoMemory>
    ensures { IfOk result (λ a. a ≡ acked ro (status_of status.now)) }
{
    Ok(PortAnswer::Say(Message::RoAck(acknowledgement(alloc, ro, status)?)))
}

// The roAck of an order.
pub fn answer_for(alloc: Global, ro: &Id, status: &Status) -> Result<PortAnswer, NoMemory>
    ensures { IfOk result (λ a. a ≡ acked ro.now (status_of status.now)) }
{
    answer(alloc, named(ro)?, status)
}

// The roAck to a message on which a machine doesn't act.
#[tactic(auto, using(mos_machines::proofs::Names::seen_ro))]
pub fn not_supported(alloc: Global, message: &Message) -> Result<PortAnswer, NoMemory>
    ensures { IfOk result (λ a. a ≡ acked (message_ro_of (seen message.now)) NotSupported) }
{
    answer(alloc, message_ro(alloc, message)?, &Status::NotSupported)
}

// The order that was asked for, or that there is none.
pub fn list(alloc: Global, order: Option<&Order>, ro: &Id) -> Result<PortAnswer, NoMemory>
    ensures { IfOk result (λ a. a ≡ answers.Say (order_said ro.now (option_copied order.entry))) }
{
    match order {
        Some(order) => Ok(PortAnswer::Say(Message::RoList(Boxed::new(alloc, order.to_body()?)?))),
        None => answer_for(alloc, ro, &Status::NoRunningOrder),
    }
}
