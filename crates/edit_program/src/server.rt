//! The server that words name.
ghost use Rattle.std.specs.Prelude.{◌≡◌, None, IfOk, IfErr};
ghost use Rattle.std.specs.Str.{chars};
ghost use Rattle.mos_fields.specs.Faults.{id_fault};
ghost use Rattle.edit_program.specs.Ends.{IsNoServer, IsNoValue};
ghost use Rattle.edit_program.specs.Words.{IsServer};

use crate::place::{letters_of, place_in, status_of};
use edit_runs::EditStatus;
use mos_fields::{Id, NoMemory, pair_ok};
use port_events::Side;
use port_links::{Dialer, News, Place};
use port_session::{End, Port};
use std::alloc::Global;

/// A server.
#[derive(Drop)]
pub(crate) struct Server {
    /// where its port is
    pub place: Place,
    /// ncsID
    pub id: Id,
}

// The ID that a word is.
fn id_in(alloc: Global, word: &str) -> Result<Id, EditStatus>
    ensures ok { IfOk result (λ id. (id ≡ chars word.now) × (id_fault (chars word.now) ≡ None)) }
    ensures fault { IfErr result (IsNoValue (id_fault (chars word.now))) }
{
    match letters_of(alloc, word) {
        Err(_) => Err(EditStatus::NoMemory),
        Ok(letters) => match Id::try_new(alloc, &letters) {
            Ok(id) => Ok(id),
            Err(fault) => Err(status_of(fault)),
        },
    }
}

/// The port of a connection to the server of this ID, by which a dialer is told what came of it.
pub(crate) fn port_to(id: &Id) -> Result<Port, NoMemory> {
    let (mos, ncs) = pair_ok(id.try_clone(), id.try_clone())?;
    Ok(Port {
        side: Side::Editor,
        device: None,
        link: 0,
        mos,
        ncs,
    })
}

/// Tells the dialer that a read of the connection of this number failed, where one did: the server may have been silent for too
/// long.
pub(crate) fn tell_silence<D: Dialer>(
    dialer: &D,
    port: &Port,
    place: &Place,
    number: u64,
    is_unheard: bool,
) {
    if is_unheard {
        let end = End::ReadFault;
        dialer.hear(port, place, News::Ended { number, end });
    }
}

/// The server whose place and ID two words are. `Usage` comes only where they aren't; the only other error is `NoMemory`.
pub(crate) fn server_in(alloc: Global, first: &str, second: &str) -> Result<Server, EditStatus>
    ensures ok { IfOk result (λ server. IsServer first.now second.now server.place server.id) }
    ensures fault { IfErr result (IsNoServer first.now second.now) }
{
    match place_in(alloc, first) {
        Err(status) => Err(status),
        Ok(place) => match id_in(alloc, second) {
            Ok(id) => Ok(Server { place, id }),
            Err(status) => Err(status),
        },
    }
}
