//! The editors' port of the server.
ghost use Rattle.std.specs.Prelude.{◌≡◌, OnErr, IfOk};
ghost use Rattle.mos_edits.specs.Entries.{entry_of, headers as headers_of};
ghost use Rattle.mos_machines.specs.Steps.{ServerEvent};
ghost use Rattle.mos_machines.specs.Values.{edit_message, seen};
ghost use Rattle.mos_values.specs.Sound.{IsSound};
ghost use Rattle.mos_values.specs.declared.message.Message.TheVariants as carried;
ghost use Rattle.port_replies.specs.Ports.{Asked, editor_heard, server_editor, told};
ghost use Rattle.port_events.specs.declared.answer.PortAnswer.TheVariants as answers;
ghost use Rattle.port_machines.specs.Editing.{reply_to};
ghost use Rattle.port_machines.specs.Steps.{IsAnswered, IsServerRefusal};

use crate::faults::{command_answer, prepared};
use crate::replies::{list, not_supported};
use mos_edits::{Edit, edit_in};
use mos_fields::{NoMemory, let_go};
use mos_values::Message;
use ncs_core::Ncs;
use port_events::{PortAnswer, SoundMessage, What};
use rundown_log::{Keeper, edit_ro};
use std::alloc::Global;

// An editor's command. Its answer is made before it, so that none that was taken is refused for want of memory.
fn command<K: Keeper>(alloc: Global, ncs: &mut Ncs<K>, edit: &Edit) -> Result<PortAnswer, NoMemory>
    requires { IsSound (edit_message edit.now) }
    ensures ok { IfOk result (λ a. IsAnswered ncs.old (Asked.Steps (ServerEvent.Command (entry_of edit.now)) (told (entry_of edit.now).ro)) a ncs.new) }
    ensures err { OnErr result (IsServerRefusal ncs.old ncs.new) }
{
    let ro = edit_ro(edit);
    let answers = prepared(alloc, ro)?;
    let taken = ncs.command(edit);
    command_answer(alloc, ro, answers, taken)
}

// The list of all orders.
fn list_all<K: Keeper>(ncs: &Ncs<K>) -> Result<PortAnswer, NoMemory>
    ensures { IfOk result (λ a. a ≡ answers.Say (carried.RoListAll (headers_of ncs.now.server.journal))) }
{
    Ok(PortAnswer::Say(Message::RoListAll(ncs.headers()?)))
}

// What answers an editor's message that is no edit. It changes nothing.
fn reply<K: Keeper>(alloc: Global, ncs: &Ncs<K>, message: &Message) -> Result<PortAnswer, NoMemory>
    ensures { IfOk result (λ a. a ≡ answers.Say (reply_to ncs.now.server.journal message.now)) }
{
    match message {
        Message::Heartbeat(time) => Ok(PortAnswer::Say(Message::Heartbeat(*time))),
        Message::RoReq(ro) => list(alloc, ncs.order(ro), ro),
        Message::RoReqAll => list_all(ncs),
        _ => not_supported(alloc, message),
    }
}

// The command of an edit, which is let go.
fn command_of<K: Keeper>(
    alloc: Global,
    ncs: &mut Ncs<K>,
    edit: Edit,
) -> Result<PortAnswer, NoMemory>
    requires { IsSound (edit_message edit) }
    ensures ok { IfOk result (λ a. IsAnswered ncs.old (Asked.Steps (ServerEvent.Command (entry_of edit)) (told (entry_of edit).ro)) a ncs.new) }
    ensures err { OnErr result (IsServerRefusal ncs.old ncs.new) }
{
    let answer = command(alloc, ncs, &edit);
    let_go(edit);
    answer
}

// An editor's message.
fn hear_editor<K: Keeper>(
    alloc: Global,
    ncs: &mut Ncs<K>,
    message: &SoundMessage,
) -> Result<PortAnswer, NoMemory>
    ensures ok { IfOk result (λ a. IsAnswered ncs.old (editor_heard ncs.old.server.journal (seen message.now)) a ncs.new) }
    ensures err { OnErr result (IsServerRefusal ncs.old ncs.new) }
{
    let message = message.message();
    match edit_in(message)? {
        Some(edit) => command_of(alloc, ncs, edit),
        None => reply(alloc, ncs, message),
    }
}

// What happens at the editors' port.
pub fn editor_port<K: Keeper>(
    alloc: Global,
    ncs: &mut Ncs<K>,
    what: &What,
) -> Result<PortAnswer, NoMemory>
    ensures ok { IfOk result (λ a. IsAnswered ncs.old (server_editor ncs.old.server.journal what.now) a ncs.new) }
    ensures err { OnErr result (IsServerRefusal ncs.old ncs.new) }
{
    match what {
        What::Accepted => Ok(PortAnswer::Done),
        What::Heard(message) => hear_editor(alloc, ncs, message),
        What::EndedIn => Ok(PortAnswer::Taken),
        _ => Ok(PortAnswer::Nothing),
    }
}
