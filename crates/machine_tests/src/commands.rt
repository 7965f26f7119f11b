//! Commands that the server takes or refuses: the order with the longest list, and appends that fail.
ghost use Rattle.std.specs.Prelude.{IfOk};
ghost use Rattle.mos_machines.specs.Values.{edit_message};
ghost use Rattle.mos_tables.specs.declared.table.Table.TheVariants as tables;
ghost use Rattle.mos_values.specs.Sound.{AllFit, IsSound};
ghost use Rattle.mos_values.specs.Views.{header_events};

use crate::journal::ready;
use crate::letters::id;
use mos_edits::Edit;
use mos_fields::{FieldFault, Id, Slug, Text, let_go};
use mos_values::{Boxed, Header, OrderBody, Unreads};
use ncs_core::{CommandFault, Ncs, StartFault};
use rundown_log::MemKeeper;
use std::alloc::Global;
use std::test::Fail;

/// So many letters.
fn letters(alloc: Global, count: usize) -> Result<Text, FieldFault> {
    let mut chars = Vec::new(alloc);
    for _ in 0..count {
        chars.push('x')?;
    }
    Text::try_new(alloc, &chars)
}

/// The header of `R`, `S` and a channel of so many letters. A list of it has 72 code units more.
fn header(alloc: Global, count: usize) -> Result<Header, FieldFault>
    ensures { IfOk result (λ h. AllFit tables.Body (header_events h)) }
{
    let ro = Id::try_new(alloc, &['R'])?;
    let slug = Slug::try_new(alloc, &['S'])?;
    let channel = letters(alloc, count)?;
    Ok(Header {
        ro,
        slug,
        channel: Some(channel),
        ed_start: None,
        ed_dur: None,
        trigger: None,
        macro_in: None,
        macro_out: None,
        metadata: Unreads::new(alloc),
        others: Unreads::new(alloc),
    })
}

#[tactic(auto, unfolding(mos_values::specs::Sound::IsSound))]
fn create(alloc: Global, count: usize) -> Result<Edit, FieldFault>
    ensures { IfOk result (λ e. IsSound (edit_message e)) }
{
    let header = header(alloc, count)?;
    let body = OrderBody::new(alloc, header);
    Ok(Edit::Create(Boxed::new(alloc, body)?))
}

/// What a command was answered.
#[derive(Clone, Copy, Debug, PartialEq, Eq)]
enum Told {
    Taken,
    Full(u64),
    Missing,
    Stopped,
    StoreFault,
    Otherwise,
}

fn fault_told(fault: &CommandFault) -> Told {
    match fault {
        CommandFault::Full { units } => Told::Full(*units),
        CommandFault::Missing { id: _ } => Told::Missing,
        CommandFault::Stopped => Told::Stopped,
        CommandFault::StoreFault => Told::StoreFault,
        _ => Told::Otherwise,
    }
}

fn answer_told(answer: Result<(), CommandFault>) -> Told {
    match answer {
        Ok(()) => Told::Taken,
        Err(fault) => {
            let told = fault_told(&fault);
            let_go(fault);
            told
        }
    }
}

/// A server of one device, which is there unless its start fails.
fn kept(start: Result<Ncs<MemKeeper>, StartFault<MemKeeper>>) -> Option<Ncs<MemKeeper>> {
    match start {
        Ok(ncs) => Some(ncs),
        Err(fault) => {
            let_go(fault);
            None
        }
    }
}

fn started(alloc: Global, fails: Vec<u64>, stands: bool) -> Option<Ncs<MemKeeper>> {
    kept(Ncs::start(alloc, MemKeeper::new(alloc, fails, stands), 1))
}

/// What a server answers to roCreate of the order with a channel of so many letters.
fn create_told(alloc: Global, ncs: &mut Ncs<MemKeeper>, count: usize) -> Result<Told, FieldFault> {
    let edit = create(alloc, count)?;
    let answer = ncs.command(&edit);
    let_go(edit);
    Ok(answer_told(answer))
}

fn ready_told(alloc: Global, ncs: &mut Ncs<MemKeeper>) -> Result<Told, FieldFault> {
    let edit = ready(alloc, 'R')?;
    let answer = ncs.command(&edit);
    let_go(edit);
    Ok(answer_told(answer))
}

/// What a server without orders answers to roCreate of that order.
fn created(alloc: Global, count: usize) -> Result<Told, FieldFault> {
    let Some(mut ncs) = started(alloc, Vec::new(alloc), false) else {
        return Ok(Told::Otherwise);
    };
    let told = create_told(alloc, &mut ncs, count);
    let_go(ncs);
    told
}

#[test]
fn a_list_of_eight_million_code_units_is_the_longest(rt: HostRuntime) -> Result<(), Fail> {
    let alloc = rt.alloc();
    assert_eq!(rt; created(alloc, 7_999_928)?, Told::Taken);
    assert_eq!(rt; created(alloc, 7_999_929)?, Told::Full(8_000_001));
    Ok(())
}

/// What the next command is answered where the order has so many entries: a roCreate first, and then READY.
fn next_told(alloc: Global, ncs: &mut Ncs<MemKeeper>, entries: u64) -> Result<Told, FieldFault> {
    if entries == 0 {
        create_told(alloc, ncs, 1)
    } else {
        ready_told(alloc, ncs)
    }
}

fn entries_in(alloc: Global, ncs: &Ncs<MemKeeper>) -> Result<u64, FieldFault> {
    let ro = id(alloc, 'R')?;
    Ok(ncs.entries(&ro))
}

/// Whether the append of this number fails, none before it, and no command is taken from then on.
fn fails_at(alloc: Global, ncs: &mut Ncs<MemKeeper>, number: u64) -> Result<bool, FieldFault> {
    for before in 0..number {
        if next_told(alloc, ncs, before)? != Told::Taken {
            return Ok(false);
        }
    }
    let failed = next_told(alloc, ncs, number)? == Told::StoreFault;
    let stopped = ready_told(alloc, ncs)? == Told::Stopped;
    Ok(failed && stopped && entries_in(alloc, ncs)? == number)
}

/// Whether the order is there, with a channel of one letter.
fn has_order(alloc: Global, ncs: &Ncs<MemKeeper>) -> Result<bool, FieldFault> {
    let ro = id(alloc, 'R')?;
    match ncs.order(&ro) {
        Some(order) => match &order.header().channel {
            Some(channel) => Ok(channel.len() == 1),
            None => Ok(false),
        },
        None => Ok(false),
    }
}

/// Whether the READY behind a roCreate isn't kept, and the order is there still.
fn keeps_order_without_ready(alloc: Global) -> Result<bool, FieldFault> {
    let fails = Vec::from_slice(alloc, &[1])?;
    let Some(mut ncs) = started(alloc, fails, false) else {
        return Ok(false);
    };
    let failed = matches!(fails_at(alloc, &mut ncs, 1), Ok(true));
    let there = matches!(has_order(alloc, &ncs), Ok(true));
    let_go(ncs);
    Ok(failed && there)
}

#[test]
fn a_ready_that_is_not_kept_leaves_its_order(rt: HostRuntime) -> Result<(), Fail> {
    assert!(rt; keeps_order_without_ready(rt.alloc())?);
    Ok(())
}

/// Whether so many entries are there, and commands are taken again.
fn goes_on(alloc: Global, ncs: &mut Ncs<MemKeeper>, entries: u64) -> Result<bool, FieldFault> {
    if entries_in(alloc, ncs)? != entries {
        return Ok(false);
    }
    if entries == 0 && ready_told(alloc, ncs)? != Told::Missing {
        return Ok(false);
    }
    let taken = next_told(alloc, ncs, entries)? == Told::Taken;
    Ok(taken && entries_in(alloc, ncs)? == entries.saturating_add(1))
}

/// Whether a server goes on so after the append of this number failed, with its entry where that stands.
fn goes_on_after(alloc: Global, number: u64, stands: bool) -> Result<bool, FieldFault> {
    let fails = Vec::from_slice(alloc, &[number])?;
    let Some(mut ncs) = started(alloc, fails, stands) else {
        return Ok(false);
    };
    let failed = matches!(fails_at(alloc, &mut ncs, number), Ok(true));
    let Some(mut ncs) = kept(ncs.restart()) else {
        return Ok(false);
    };
    let entries = number.saturating_add(u64::from(stands));
    let went_on = matches!(goes_on(alloc, &mut ncs, entries), Ok(true));
    let_go(ncs);
    Ok(failed && went_on)
}

#[test]
fn a_server_goes_on_after_an_append_that_failed(rt: HostRuntime) -> Result<(), Fail> {
    for number in 0..3u64 {
        for stands in [false, true] {
            assert!(rt;
                goes_on_after(rt.alloc(), number, stands)?,
                "{number} {stands}"
            );
        }
    }
    Ok(())
}
