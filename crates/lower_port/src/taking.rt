//! Objects that are taken into a device's table.
ghost use Rattle.std.specs.Prelude.{◌≡◌, [], ◌∷◌, true, false, if◌then◌else◌, IfOk, OnOk, OnErr, IsErr, MatchResult};
ghost use Rattle.port_events.specs.declared.answer.PortAnswer.TheVariants as answers;
ghost use Rattle.lower_port.specs.Servers.{take_answer};
ghost use Rattle.lower_port.specs.Taking.{take_all};

use crate::replies::take_told;
use mos_fields::{NoMemory, let_go, pair_ok};
use mos_values::{Message, MosObj, MosObjs};
use object_table::{ObjectTable, TableFault};
use port_events::PortAnswer;
use std::alloc::Global;
use std::mem::replace;

// Takes an object: whether there was room for it.
fn take_one(table: &mut ObjectTable, object: &MosObj) -> Result<bool, NoMemory>
    ensures room { IfOk result (λ t. t ≡ (take_all table.old (object.now ∷ [])).1) }
    ensures step { OnOk result (table.new ≡ (take_all table.old (object.now ∷ [])).0) }
    ensures err { OnErr result (table.new ≡ table.old) }
{
    match table.take(object) {
        Ok(()) => Ok(true),
        Err(TableFault::Full { units: _ }) => Ok(false),
        Err(TableFault::NoMemory) => Err(NoMemory),
    }
}

// Takes objects in order, up to the first for which there is no room: whether there was room for all.
fn take_each(table: &mut ObjectTable, objects: &[MosObj]) -> Result<bool, NoMemory>
    ensures room { IfOk result (λ t. t ≡ (take_all table.old objects.now).1) }
    ensures step { OnOk result (table.new ≡ (take_all table.old objects.now).0) }
{
    let mut rest = objects;
    'objects: while let [object, more @ ..] = rest {
        if !take_one(table, object)? {
            return Ok(false);
        }
        rest = more;
    }
    Ok(true)
}

// The table with these objects taken, and whether there was room for all.
fn with_all(table: &ObjectTable, objects: &MosObjs) -> Result<(ObjectTable, bool), NoMemory>
    ensures { IfOk result (λ t. t ≡ take_all table.now objects.now) }
{
    let mut after = table.try_clone()?;
    let has_room = take_each(&mut after, objects.as_slice())?;
    Ok((after, has_room))
}

// Of the answers that an object was taken, and that there was no room, the one that is so.
fn chosen(
    outcome: Result<bool, NoMemory>,
    taken: PortAnswer,
    refused: PortAnswer,
) -> Result<PortAnswer, NoMemory>
    ensures ok { IfOk result (λ a. MatchResult outcome (λ t. a ≡ (if t then taken else refused)) (λ _. ⊥)) }
    ensures err { OnErr result (IsErr outcome) }
{
    match outcome {
        Ok(true) => {
            let_go(refused);
            Ok(taken)
        }
        Ok(false) => {
            let_go(taken);
            Ok(refused)
        }
        Err(fault) => {
            let_go((taken, refused));
            Err(fault)
        }
    }
}

// The object of this message is taken, which is answered so. Both answers are made before it. Without memory the table stays
// as it was.
pub fn take_object(
    alloc: Global,
    table: &mut ObjectTable,
    message: &Message,
    object: &MosObj,
) -> Result<PortAnswer, NoMemory>
    ensures answer { IfOk result (λ a. a ≡ answers.Say (take_answer message.now (take_all table.old (object.now ∷ [])).1)) }
    ensures step { OnOk result (table.new ≡ (take_all table.old (object.now ∷ [])).0) }
    ensures err { OnErr result (table.new ≡ table.old) }
{
    let (taken, refused) = pair_ok(
        take_told(alloc, message, true),
        take_told(alloc, message, false),
    )?;
    let outcome = take_one(table, object);
    chosen(outcome, taken, refused)
}

// The objects of this message are taken in order, up to the first for which there is no room, which is answered so. They go
// into a copy of the table, which then takes its place: without memory the table stays as it was.
pub fn take_list(
    alloc: Global,
    table: &mut ObjectTable,
    message: &Message,
    objects: &MosObjs,
) -> Result<PortAnswer, NoMemory>
    ensures answer { IfOk result (λ a. a ≡ answers.Say (take_answer message.now (take_all table.old objects.now).1)) }
    ensures step { OnOk result (table.new ≡ (take_all table.old objects.now).0) }
    ensures err { OnErr result (table.new ≡ table.old) }
{
    let (after, has_room) = with_all(table, objects)?;
    let (answer, after) = pair_ok(take_told(alloc, message, has_room), Ok(after))?;
    let_go(replace(table, after));
    Ok(answer)
}
