//! What a worker is to do, and what came of it.
use mos_io::{Clock, Pacer, Sink, Source};
use port_links::{Dialer, Link, Place};
use port_session::End;
use shared_machine::{Pass, StepRelation};

/// What a worker is to do.
#[derive(Drop)]
pub enum Task<S: Source + Drop, K: Sink + Drop, Di: Dialer, P: Pacer + Drop, C: Clock + Drop> {
    /// To serve a connection that was accepted.
    Serve(Link<S, K>),
    /// To dial, to drive the connection, to pause and to dial again, until the pacer stops it.
    Dial {
        /// where the peer listens
        place: Place,
        dialer: Di,
        pacer: P,
        clock: C,
    },
}

/// What came of it.
#[derive(Drop)]
pub enum Work<M: StepRelation, D: Drop, S: Drop, K: Drop, Di: Drop, P: Drop> {
    /// The connection ended.
    Served {
        pass: Pass<M, D>,
        source: S,
        sink: K,
        /// the device, from 0, that its first message named and at whose port it was served; None where it was served at the
        /// port as it is, and where none was found
        device: Option<u32>,
        /// why it ended
        end: End,
    },
    /// The pacer stopped it.
    Drove {
        pass: Pass<M, D>,
        dialer: Di,
        pacer: P,
        /// whether a connection ended for want of memory
        starved: bool,
    },
}
