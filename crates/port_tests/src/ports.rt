//! What no clause says: that a hub takes the server's machine, and what is answered then.
ghost use Rattle.shared_machine.specs.Passes.{IsPassOf};

use crate::events::{
    at_device, at_editor, at_lower, at_upper, create, heartbeat, insert, request, request_all, time,
};
use crate::lines::line;
use mos_fields::{FieldFault, Id, NoMemory, let_go};
use ncs_core::Ncs;
use port_events::{PortEvent, SoundMessage, What};
use port_machines::ServerMachine;
use rundown_log::MemKeeper;
use shared_machine::{Hub, Pass};
use std::alloc::Global;
use std::sync::Wait;
use std::test::Fail;

// Whether an event of the server is answered so.
fn server_says<R: Wait>(
    rt: &R,
    alloc: Global,
    hub: &Hub<ServerMachine<MemKeeper>>,
    pass: &mut Pass<ServerMachine<MemKeeper>>,
    event: PortEvent,
    wanted: &str,
) -> bool
    requires { IsPassOf hub.now pass.old }
    ensures { IsPassOf hub.now pass.new }
{
    match hub.call(rt, pass, event) {
        Ok(answer) => is(line(alloc, answer), wanted),
        Err(_) => false,
    }
}

// Whether these are the words.
fn is(line: Result<String, NoMemory>, wanted: &str) -> bool {
    match line {
        Ok(text) => text.as_str() == wanted,
        Err(_) => false,
    }
}

// A server of one device, without entries.
pub fn server(alloc: Global) -> Option<ServerMachine<MemKeeper>> {
    let keeper = MemKeeper::new(alloc, Vec::new(alloc), false);
    match Ncs::start(alloc, keeper, 1) {
        Ok(ncs) => Some(ServerMachine::new(alloc, ncs)),
        Err(fault) => {
            let_go(fault);
            None
        }
    }
}

// Whether an editor's message is answered so.
fn editor_hears<R: Wait>(
    rt: &R,
    alloc: Global,
    hub: &Hub<ServerMachine<MemKeeper>>,
    pass: &mut Pass<ServerMachine<MemKeeper>>,
    message: Result<SoundMessage, FieldFault>,
    wanted: &str,
) -> Result<bool, Fail>
    requires { IsPassOf hub.now pass.old }
    ensures { IsPassOf hub.now pass.new }
{
    let event = at_editor(What::Heard(message?));
    Ok(server_says(rt, alloc, hub, pass, event, wanted))
}

// Whether one editor inserts the story, and the other is told that it is there.
fn one_insert_wins<R: Wait>(
    rt: &R,
    alloc: Global,
    hub: &Hub<ServerMachine<MemKeeper>>,
    first: &mut Pass<ServerMachine<MemKeeper>>,
    second: &mut Pass<ServerMachine<MemKeeper>>,
) -> Result<bool, Fail>
    requires first { IsPassOf hub.now first.old }
    requires second { IsPassOf hub.now second.old }
    ensures first { IsPassOf hub.now first.new }
    ensures second { IsPassOf hub.now second.new }
{
    let created = editor_hears(rt, alloc, hub, first, create(alloc), "roAck R OK")?;
    let inserted = editor_hears(rt, alloc, hub, first, insert(alloc), "roAck R OK")?;
    let there = "roAck R ALREADY THERE D";
    let refused = editor_hears(rt, alloc, hub, second, insert(alloc), there)?;
    Ok(created && inserted && refused)
}

// Whether both read the order with the story then.
fn both_insert_and_read<R: Wait>(
    rt: &R,
    alloc: Global,
    hub: &Hub<ServerMachine<MemKeeper>>,
    first: &mut Pass<ServerMachine<MemKeeper>>,
    second: &mut Pass<ServerMachine<MemKeeper>>,
) -> Result<bool, Fail>
    requires first { IsPassOf hub.now first.old }
    requires second { IsPassOf hub.now second.old }
    ensures first { IsPassOf hub.now first.new }
    ensures second { IsPassOf hub.now second.new }
{
    let won = one_insert_wins(rt, alloc, hub, first, second)?;
    let read = editor_hears(rt, alloc, hub, first, request(alloc), "roList R D")?;
    let also_read = editor_hears(rt, alloc, hub, second, request(alloc), "roList R D")?;
    Ok(won && read && also_read)
}

// How many entries the order has.
pub fn entries(alloc: Global, machine: &ServerMachine<MemKeeper>) -> Option<u64> {
    match Id::try_new(alloc, &['R']) {
        Ok(ro) => Some(machine.ncs().entries(&ro)),
        Err(_) => None,
    }
}

#[test]
fn one_of_two_inserts_wins_and_both_editors_read_the_story(rt: HostRuntime) -> Result<(), Fail> {
    let alloc = rt.alloc();
    let machine = server(alloc).expect(&rt, "memory");
    let (hub, mut first) = Hub::new(alloc, (machine, ())).expect(&rt, "memory");
    let mut second = hub.split(&mut first).expect(&rt, "memory");
    let played = both_insert_and_read(&rt, alloc, &hub, &mut first, &mut second);
    hub.meet(&rt, &mut first, &mut second)
        .expect(&rt, "never refused");
    let (machine, ()) = hub.close(&rt, first);
    let entries = entries(alloc, &machine);
    let_go(machine);
    assert!(&rt; played?);
    assert_eq!(&rt; entries, Some(2));
    Ok(())
}

// Whether a device is heard on the connection that it opened.
fn device_is_heard<R: Wait>(
    rt: &R,
    alloc: Global,
    hub: &Hub<ServerMachine<MemKeeper>>,
    pass: &mut Pass<ServerMachine<MemKeeper>>,
) -> bool
    requires { IsPassOf hub.now pass.old }
    ensures { IsPassOf hub.now pass.new }
{
    let event = at_upper(1, What::Accepted);
    let accepted = server_says(rt, alloc, hub, pass, event, "done");
    let event = at_upper(1, What::Heard(request_all()));
    let listed = server_says(rt, alloc, hub, pass, event, "roListAll of none");
    let event = at_upper(2, What::Heard(request_all()));
    let former = server_says(rt, alloc, hub, pass, event, "stale");
    let event = at_device(1, 1, What::Heard(request_all()));
    let nobody = server_says(rt, alloc, hub, pass, event, "stale");
    accepted && listed && former && nobody
}

// Whether it is sent an order on the connection that the server opened.
fn device_is_sent_an_order<R: Wait>(
    rt: &R,
    alloc: Global,
    hub: &Hub<ServerMachine<MemKeeper>>,
    pass: &mut Pass<ServerMachine<MemKeeper>>,
) -> Result<bool, Fail>
    requires { IsPassOf hub.now pass.old }
    ensures { IsPassOf hub.now pass.new }
{
    let event = at_upper(3, What::Dialed(time()));
    let greeted = server_says(rt, alloc, hub, pass, event, "heartbeat");
    let event = at_upper(3, What::Answered(heartbeat()));
    let opened = server_says(rt, alloc, hub, pass, event, "taken");
    let created = editor_hears(rt, alloc, hub, pass, create(alloc), "roAck R OK")?;
    let event = at_upper(3, What::Next(time()));
    let sent = server_says(rt, alloc, hub, pass, event, "roCreate R");
    Ok(greeted && opened && created && sent)
}

#[test]
fn a_device_is_served_at_its_port(rt: HostRuntime) -> Result<(), Fail> {
    let alloc = rt.alloc();
    let machine = server(alloc).expect(&rt, "memory");
    let (hub, mut pass) = Hub::new(alloc, (machine, ())).expect(&rt, "memory");
    let heard = device_is_heard(&rt, alloc, &hub, &mut pass);
    let sent = device_is_sent_an_order(&rt, alloc, &hub, &mut pass);
    let event = at_lower(What::Heard(request_all()));
    let refused = server_says(&rt, alloc, &hub, &mut pass, event, "mosAck");
    let (machine, ()) = hub.close(&rt, pass);
    let_go(machine);
    assert!(&rt; heard && refused);
    assert!(&rt; sent?);
    Ok(())
}
