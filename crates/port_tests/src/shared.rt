//! What no clause says: that both callers get on, and what the machine is then.
ghost use Rattle.std.specs.Arc.{arc_value};
ghost use Rattle.shared_machine.specs.Passes.{IsPassOf};

use crate::jobs::{CallJob, Report, ReportOf};
use crate::register::{Register, Reply, Request};
use shared_machine::{Hub, NoMemory, Pass};
use std::sync::{Arc, Wait};
use std::test::Fail;
use std::thread::{join, spawn_with};

// What a thread brings back: its pass, and what its calls were answered.
#[derive(Drop)]
struct Called {
    pass: Pass<Register>,
    inserted: Option<Reply>,
    found: Option<Reply>,
}

// Inserts a story, and then looks for it.
fn insert_and_look<R: Wait>(
    rt: &R,
    hub: &Hub<Register>,
    mut pass: Pass<Register>,
    story: u64,
) -> Called
    requires { IsPassOf hub.now pass }
    ensures { IsPassOf hub.now result.pass }
{
    let inserted = hub
        .call(
            rt,
            &mut pass,
            Request {
                story,
                inserts: true,
            },
        )
        .ok();
    let found = hub
        .call(
            rt,
            &mut pass,
            Request {
                story,
                inserts: false,
            },
        )
        .ok();
    Called {
        pass,
        inserted,
        found,
    }
}

#[test]
fn one_of_two_inserts_wins_and_both_find_the_story(rt: HostRuntime) -> Result<(), Fail> {
    let register = Register::new(rt.alloc(), u64::MAX);
    let (hub, mut first) = Hub::new(rt.alloc(), (register, ())).expect(&rt, "memory");
    let second = hub.split(&mut first).expect(&rt, "memory");
    let (a, b) = join(
        &rt,
        || -> Called
            requires { IsPassOf hub first }
            ensures { IsPassOf hub result.pass }
        { insert_and_look(&rt, &hub, first, 4) },
        || -> Called
            requires { IsPassOf hub second }
            ensures { IsPassOf hub result.pass }
        { insert_and_look(&rt, &hub, second, 4) },
    );
    let Called {
        pass: mut first,
        inserted: a_inserted,
        found: a_found,
    } = a;
    let Called {
        pass: mut second,
        inserted: b_inserted,
        found: b_found,
    } = b;
    hub.meet(&rt, &mut first, &mut second)
        .expect(&rt, "never refused");
    let (register, ()) = hub.close(&rt, first);
    let won = Some(Reply {
        inserted: true,
        stands: true,
    });
    let lost = Some(Reply {
        inserted: false,
        stands: true,
    });
    let a_won = a_inserted == won && b_inserted == lost;
    let b_won = a_inserted == lost && b_inserted == won;
    assert!(&rt; a_won != b_won);
    assert!(&rt; a_found == lost);
    assert!(&rt; b_found == lost);
    assert!(&rt; register.stories.len() == 1);
    assert!(&rt; register.answered == 4);
    Ok(())
}

#[test]
fn a_refused_call_is_no_entry_and_the_pass_goes_on(rt: HostRuntime) -> Result<(), Fail> {
    let register = Register::new(rt.alloc(), 1);
    let (hub, mut pass) = Hub::new(rt.alloc(), (register, ())).expect(&rt, "memory");
    let insert = Request {
        story: 7,
        inserts: true,
    };
    let look = Request {
        story: 7,
        inserts: false,
    };
    let inserted = hub.call(&rt, &mut pass, insert);
    let refused = hub.call(&rt, &mut pass, look);
    let found = hub.call(&rt, &mut pass, look);
    let (register, ()) = hub.close(&rt, pass);
    assert!(&rt; matches!(inserted, Ok(reply) if reply.inserted));
    assert!(&rt; matches!(refused, Err(NoMemory)));
    assert!(&rt; matches!(found, Ok(reply) if reply.stands && !reply.inserted));
    assert!(&rt; register.answered == 2);
    Ok(())
}

#[test]
fn jobs_share_a_hub_by_an_arc(rt: HostRuntime) -> Result<(), Fail> {
    let register = Register::new(rt.alloc(), u64::MAX);
    let (hub, mut first) = Hub::new(rt.alloc(), (register, ())).expect(&rt, "memory");
    let second = hub.split(&mut first).expect(&rt, "memory");
    let hub = Arc::new(rt.alloc(), hub)?;
    let request = Request {
        story: 7,
        inserts: true,
    };
    let one = CallJob {
        rt: rt.clone()?,
        hub: Arc::try_clone(&hub)?,
        pass: first,
        request,
    };
    let two = CallJob {
        rt: rt.clone()?,
        hub: Arc::try_clone(&hub)?,
        pass: second,
        request,
    };
    let one = spawn_with(
        &rt,
        ReportOf::of(&one),
        move || -> Report
            ensures { IsPassOf (arc_value one.hub) result.pass }
        { one.run() },
    )
    .expect(&rt, "a thread");
    let two = spawn_with(
        &rt,
        ReportOf::of(&two),
        move || -> Report
            ensures { IsPassOf (arc_value two.hub) result.pass }
        { two.run() },
    )
    .expect(&rt, "a thread");
    let Report { pass, reply: a } = one.join(&rt);
    let Report { pass: _, reply: b } = two.join(&rt);
    let hub = Arc::into_inner(hub).expect(&rt, "no other holder");
    let (register, ()) = hub.close(&rt, pass);
    assert!(&rt; matches!(a, Some(reply) if reply.stands));
    assert!(&rt; matches!(b, Some(reply) if reply.stands));
    assert!(&rt; register.stories.len() == 1);
    assert!(&rt; register.answered == 2);
    Ok(())
}
