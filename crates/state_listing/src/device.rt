//! What a device has.
ghost use Rattle.std.specs.Prelude.{◌≡◌, [], ◌∷◌, ◌++◌, ◌+◌, OnOk, IfOk, string_bytes, codes};
ghost use Rattle.std.specs.Fmt.{decimal};
ghost use Rattle.std.specs.List.{flat_map};
ghost use Rattle.mos_fields.specs.Characters.{Text};
ghost use Rattle.mos_machines.specs.Tables.{look, gate_of};
ghost use Rattle.gateway_core.specs.Parts.{asking_of, phase_of};
ghost use Rattle.world_scripts.specs.Lines.{utf8};
ghost use Rattle.world_scripts.specs.Listing.{line as line_of, asked_words, phase_word, connection_word, order_words};
ghost use Rattle.state_listing.specs.Words.{behind};

use crate::orders::add_order;
use crate::texts::{add_connection, add_id, add_named, add_number, add_word, end_line, push_head};
use gateway_core::{Asking, Gate, Phase};
use mos_fields::{Id, NoMemory};
use order_table::OrderTable;
use std::alloc::Global;

/// Appends the request that is in flight to the server.
fn add_asked(alloc: Global, line: &mut String, out: &Asking) -> Result<(), NoMemory>
    ensures { OnOk result (string_bytes line.new ≡ string_bytes line.old ++ behind (asked_words (asking_of out.now))) }
{
    match out {
        Asking::Nothing => add_word(line, "idle"),
        Asking::Order(ro) => add_named(alloc, line, "roReq", ro),
        Asking::All => add_word(line, "roReqAll"),
        Asking::Beat => add_word(line, "heartbeat"),
    }
}

/// Appends how an order stands with the server.
fn add_phase(line: &mut String, phase: Phase) -> Result<(), NoMemory>
    ensures { OnOk result (string_bytes line.new ≡ string_bytes line.old ++ behind (phase_word (phase_of phase) ∷ [])) }
{
    match phase {
        Phase::In => add_word(line, "in"),
        Phase::Out => add_word(line, "out"),
        Phase::Asked => add_word(line, "asked"),
        Phase::Crossed => add_word(line, "crossed"),
    }
}

/// How many entries of an order the device has applied; none where there is no row.
fn applied_in(applied: &OrderTable<u64>, ro: &Id) -> u64
    ensures { result ≡ look 0 applied.now ro.now }
{
    match applied.find(ro) {
        Some(count) => *count,
        None => 0,
    }
}

/// Appends the line of a device's connections, and of what it asked for. The device counts from 0, the line from 1.
pub fn push_device_line(
    alloc: Global,
    out: &mut Vec<u8>,
    d: u32,
    gate: &Gate,
) -> Result<(), NoMemory>
    ensures { OnOk result (out.new.items ≡ out.old.items ++ line_of (codes "device" ∷ decimal (d + 1) ∷ codes "upper" ∷ connection_word (gate_of gate.now).upper ∷ codes "dial" ∷ connection_word (gate_of gate.now).link ∷ asked_words (gate_of gate.now).out)) }
{
    let mut line = String::new(alloc);
    push_head(alloc, &mut line, "device", d)?;
    add_word(&mut line, "upper")?;
    add_connection(alloc, &mut line, gate.upper_link())?;
    add_word(&mut line, "dial")?;
    add_connection(alloc, &mut line, gate.own_link())?;
    add_asked(alloc, &mut line, gate.out())?;
    end_line(out, &line)
}

/// Appends the line of an order that a device knows.
fn push_held_line(
    alloc: Global,
    out: &mut Vec<u8>,
    d: u32,
    gate: &Gate,
    applied: &OrderTable<u64>,
    ro: &Id,
) -> Result<(), NoMemory>
    ensures { OnOk result (out.new.items ≡ out.old.items ++ line_of (codes "held" ∷ decimal (d + 1) ∷ utf8 ro.now ∷ phase_word ((gate_of gate.now).phase ro.now) ∷ decimal (look 0 applied.now ro.now) ∷ order_words ((gate_of gate.now).held ro.now))) }
{
    let mut line = String::new(alloc);
    push_head(alloc, &mut line, "held", d)?;
    add_id(alloc, &mut line, ro)?;
    add_phase(&mut line, gate.phase(ro))?;
    add_number(alloc, &mut line, applied_in(applied, ro))?;
    add_order(alloc, &mut line, gate.order(ro))?;
    end_line(out, &line)
}

/// Appends the lines of orders that a device knows.
pub fn push_held_lines(
    alloc: Global,
    out: &mut Vec<u8>,
    d: u32,
    gate: &Gate,
    applied: &OrderTable<u64>,
    ids: &[Id],
) -> Result<(), NoMemory>
    ensures { OnOk result (out.new.items ≡ out.old.items ++ flat_map (λ (r : Text). line_of (codes "held" ∷ decimal (d + 1) ∷ utf8 r ∷ phase_word ((gate_of gate.now).phase r) ∷ decimal (look 0 applied.now r) ∷ order_words ((gate_of gate.now).held r))) ids.now) }
{
    'ids: for ro in ids {
        push_held_line(alloc, out, d, gate, applied, ro)?;
    }
    Ok(())
}

/// The roIDs that a gateway knows, in their order.
pub fn known_ids(alloc: Global, gate: &Gate) -> Result<Vec<Id>, NoMemory>
    ensures { IfOk result (λ ids. ids.items ≡ (gate_of gate.now).known) }
{
    let mut ids = Vec::new(alloc);
    'known: while let Some(ro) = gate.id_at(ids.len()) {
        ids.push(ro.try_clone()?)?;
    }
    Ok(ids)
}
