//! What the server has of a device.
ghost use Rattle.std.specs.Prelude.{◌≡◌, [], ◌∷◌, ◌++◌, ◌+◌, ◌<◌, Bool, OnOk, string_bytes, codes};
ghost use Rattle.std.specs.Fmt.{decimal};
ghost use Rattle.std.specs.List.{flat_map};
ghost use Rattle.mos_fields.specs.Characters.{Text};
ghost use Rattle.server_peer.specs.declared.view.View.TheVariants as views;
ghost use Rattle.ncs_core.specs.State.{ncs_of, devices_of};
ghost use Rattle.server_peer.specs.Parts.{out_of, upper_of};
ghost use Rattle.world_scripts.specs.Lines.{utf8};
ghost use Rattle.world_scripts.specs.Listing.{line as line_of, due_words, sent_words, upper_words, view_words};
ghost use Rattle.state_listing.specs.Words.{behind, shown_words};

use crate::texts::{
    add_id, add_named_and_numbered, add_named_and_numbered_twice, add_numbered, add_word, end_line,
    push_head,
};
use mos_fields::{Id, NoMemory};
use ncs_core::{Ncs, ServerOut, Upper, View};
use rundown_log::Keeper;
use std::alloc::Global;

/// Appends what is in flight to a device.
fn add_sent(alloc: Global, line: &mut String, out: &ServerOut) -> Result<(), NoMemory>
    ensures { OnOk result (string_bytes line.new ≡ string_bytes line.old ++ behind (sent_words (out_of out.now))) }
{
    match out {
        ServerOut::Idle => add_word(line, "idle"),
        ServerOut::Edit { ro, k } => add_named_and_numbered(alloc, line, "edit", ro, *k),
        ServerOut::Again { ro, m } => add_named_and_numbered(alloc, line, "again", ro, *m),
        ServerOut::Script { ro, k, m } => {
            add_named_and_numbered_twice(alloc, line, "script", ro, *k, *m)
        }
        ServerOut::Beat => add_word(line, "beat"),
    }
}

/// Appends the connection that the server opened to a device, and what is in flight there.
fn add_upper(alloc: Global, line: &mut String, upper: &Upper) -> Result<(), NoMemory>
    ensures { OnOk result (string_bytes line.new ≡ string_bytes line.old ++ behind (upper_words (upper_of upper.now))) }
{
    match upper {
        Upper::Down => add_word(line, "down"),
        Upper::Greeting { link } => add_numbered(alloc, line, "greeting", *link),
        Upper::Open { link, out } => {
            add_numbered(alloc, line, "open", *link)?;
            add_sent(alloc, line, out)
        }
    }
}

/// Appends how many scripts are still to be sent, where any are.
fn add_due(alloc: Global, line: &mut String, scripts: u64) -> Result<(), NoMemory>
    ensures { OnOk result (string_bytes line.new ≡ string_bytes line.old ++ behind (due_words scripts)) }
{
    if scripts == 0 {
        Ok(())
    } else {
        add_numbered(alloc, line, "scripts", scripts)
    }
}

/// Appends that a device is taken to hold an order after `n` entries, how many of its scripts are still to be sent, and whether
/// its READY is sent again behind them.
fn add_in(
    alloc: Global,
    line: &mut String,
    n: u64,
    again: bool,
    scripts: u64,
) -> Result<(), NoMemory>
    ensures { OnOk result (string_bytes line.new ≡ string_bytes line.old ++ behind (shown_words (views.In n again scripts))) }
{
    add_numbered(alloc, line, "in", n)?;
    add_due(alloc, line, scripts)?;
    match again {
        false => Ok(()),
        true => add_word(line, "again"),
    }
}

/// Appends what a device is taken to hold of an order.
fn add_view(alloc: Global, line: &mut String, view: View) -> Result<(), NoMemory>
    ensures { OnOk result (string_bytes line.new ≡ string_bytes line.old ++ behind (shown_words view)) }
{
    match view {
        View::Out => add_word(line, "out"),
        View::Listed { m } => add_numbered(alloc, line, "listed", m),
        View::In { n, again, scripts } => add_in(alloc, line, n, again, scripts),
        View::From { k } => add_numbered(alloc, line, "from", k),
    }
}

/// Appends the line of the server's connection to a device, which counts from 0; the line counts from 1.
pub fn push_server_line<K: Keeper>(
    alloc: Global,
    out: &mut Vec<u8>,
    ncs: &Ncs<K>,
    d: u32,
) -> Result<(), NoMemory>
    requires { d < devices_of ncs.now }
    ensures { OnOk result (out.new.items ≡ out.old.items ++ line_of (codes "server" ∷ decimal (d + 1) ∷ upper_words ((ncs_of ncs.now).peers d).upper)) }
{
    let mut line = String::new(alloc);
    push_head(alloc, &mut line, "server", d)?;
    add_upper(alloc, &mut line, ncs.upper(d))?;
    end_line(out, &line)
}

/// Appends the line of a device's view of an order.
#[tactic(auto, using(crate::proofs::ShownViews::shown))]
fn push_view_line<K: Keeper>(
    alloc: Global,
    out: &mut Vec<u8>,
    ncs: &Ncs<K>,
    d: u32,
    ro: &Id,
) -> Result<(), NoMemory>
    requires { d < devices_of ncs.now }
    ensures { OnOk result (out.new.items ≡ out.old.items ++ line_of (codes "view" ∷ decimal (d + 1) ∷ utf8 ro.now ∷ view_words (((ncs_of ncs.now).peers d).views ro.now))) }
{
    let mut line = String::new(alloc);
    push_head(alloc, &mut line, "view", d)?;
    add_id(alloc, &mut line, ro)?;
    add_view(alloc, &mut line, ncs.view(d, ro))?;
    end_line(out, &line)
}

/// Appends the lines of a device's views of orders.
pub fn push_view_lines<K: Keeper>(
    alloc: Global,
    out: &mut Vec<u8>,
    ncs: &Ncs<K>,
    d: u32,
    ids: &[Id],
) -> Result<(), NoMemory>
    requires { d < devices_of ncs.now }
    ensures { OnOk result (out.new.items ≡ out.old.items ++ flat_map (λ (r : Text). line_of (codes "view" ∷ decimal (d + 1) ∷ utf8 r ∷ view_words (((ncs_of ncs.now).peers d).views r))) ids.now) }
{
    'ids: for ro in ids {
        push_view_line(alloc, out, ncs, d, ro)?;
    }
    Ok(())
}
