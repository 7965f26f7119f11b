//! Two editors on threads of their own insert the same story.
ghost use Rattle.shared_machine.specs.Passes.{IsPassOf};

use crate::events::{at_editor, create, insert, request};
use crate::lines::line;
use crate::ports::{entries, server};
use mos_fields::{FieldFault, NoMemory, let_go};
use port_events::{SoundMessage, What};
use port_machines::ServerMachine;
use rundown_log::MemKeeper;
use shared_machine::{Hub, Pass};
use std::alloc::Global;
use std::sync::Wait;
use std::test::Fail;
use std::thread::join;

/// What an editor is answered.
#[derive(Clone, Copy, Debug, PartialEq, Eq)]
enum Told {
    Taken,
    There,
    Listed,
    Otherwise,
}

fn told_in(text: &str) -> Told {
    match text {
        "roAck R OK" => Told::Taken,
        "roAck R ALREADY THERE D" => Told::There,
        "roList R D" => Told::Listed,
        _ => Told::Otherwise,
    }
}

fn line_told(line: Result<String, NoMemory>) -> Told {
    match line {
        Ok(text) => told_in(text.as_str()),
        Err(_) => Told::Otherwise,
    }
}

/// What an editor's message is answered.
fn message_told<R: Wait>(
    rt: &R,
    alloc: Global,
    hub: &Hub<ServerMachine<MemKeeper>>,
    pass: &mut Pass<ServerMachine<MemKeeper>>,
    message: Result<SoundMessage, FieldFault>,
) -> Told
    requires { IsPassOf hub.now pass.old }
    ensures { IsPassOf hub.now pass.new }
{
    let Ok(message) = message else {
        return Told::Otherwise;
    };
    match hub.call(rt, pass, at_editor(What::Heard(message))) {
        Ok(answer) => line_told(line(alloc, answer)),
        Err(_) => Told::Otherwise,
    }
}

/// What a thread brings back: its pass, and what its calls were answered.
#[derive(Drop)]
struct Called {
    pass: Pass<ServerMachine<MemKeeper>>,
    inserted: Told,
    read: Told,
}

/// Inserts the story, and reads the order then.
fn insert_and_read<R: Wait>(
    rt: &R,
    alloc: Global,
    hub: &Hub<ServerMachine<MemKeeper>>,
    mut pass: Pass<ServerMachine<MemKeeper>>,
) -> Called
    requires { IsPassOf hub.now pass }
    ensures { IsPassOf hub.now result.pass }
{
    let inserted = message_told(rt, alloc, hub, &mut pass, insert(alloc));
    let read = message_told(rt, alloc, hub, &mut pass, request(alloc));
    Called {
        pass,
        inserted,
        read,
    }
}

#[test]
fn one_of_two_threads_inserts_and_both_read_the_story(rt: HostRuntime) -> Result<(), Fail> {
    let alloc = rt.alloc();
    let machine = server(alloc).expect(&rt, "memory");
    let (hub, mut first) = Hub::new(alloc, (machine, ())).expect(&rt, "memory");
    let created = message_told(&rt, alloc, &hub, &mut first, create(alloc));
    let second = hub.split(&mut first).expect(&rt, "memory");
    let (a, b) = join(
        &rt,
        || -> Called
            requires { IsPassOf hub first }
            ensures { IsPassOf hub result.pass }
        { insert_and_read(&rt, alloc, &hub, first) },
        || -> Called
            requires { IsPassOf hub second }
            ensures { IsPassOf hub result.pass }
        { insert_and_read(&rt, alloc, &hub, second) },
    );
    let Called {
        pass: mut first,
        inserted: a_inserted,
        read: a_read,
    } = a;
    let Called {
        pass: mut second,
        inserted: b_inserted,
        read: b_read,
    } = b;
    hub.meet(&rt, &mut first, &mut second)
        .expect(&rt, "never refused");
    let (machine, ()) = hub.close(&rt, first);
    let entries = entries(alloc, &machine);
    let_go(machine);
    let a_won = a_inserted == Told::Taken && b_inserted == Told::There;
    let b_won = a_inserted == Told::There && b_inserted == Told::Taken;
    assert!(&rt; created == Told::Taken);
    assert!(&rt; a_won != b_won);
    assert!(&rt; a_read == Told::Listed && b_read == Told::Listed);
    assert_eq!(&rt; entries, Some(2));
    Ok(())
}
