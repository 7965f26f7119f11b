//! A dialer in memory.
ghost use Rattle.std.specs.Prelude.{◌≡◌, ℕ, ◌≤◌, [], ◌∷◌, ◌++◌, Some, IfOk, IfSome, IsErr, IsTrue, OnErr, IfNone};
ghost use Rattle.mos_io.specs.Counts.{Rose, counted};
ghost use Rattle.mos_io.specs.Memory.{is_listed as is_listed_in};
ghost use Rattle.port_links.specs.Links.{Gives};
ghost use Rattle.port_links.specs.Memory.{Hands};

use crate::dialer::Dialer;
use crate::link::Link;
use crate::listed::{is_listed, take_first};
use crate::place::Place;
use mos_fields::NoMemory;
use mos_io::{Failed, Sink, Source};
use std::alloc::Global;
use std::collections::VecDeque;
use std::marker::Model;

/// Opens the connections of a list, the first one first, whatever the place, and fails at chosen calls and where none is
/// left. A twin has none to open.
#[derive(Drop)]
pub struct MemDialer<S: Source + Drop, K: Sink + Drop> {
    alloc: Global,
    links: VecDeque<Link<S, K>>,
    opened: Vec<u64>,
    fails: Vec<u64>,
    calls: u64,
    faults: u64,
}

impl<S: Source + Drop, K: Sink + Drop> Model for MemDialer<S, K> {
    ghost use Rattle.port_links.specs.Memory.{MemoryDialer};
    ghost use Rattle.port_links.specs.declared.link.Link.{Link as LinkOf};

    ghost Value = { MemoryDialer (LinkOf S K) };

    ghost view = { λ d. record { links = d.links.items; opened = d.opened.items; fails = d.fails.items; calls = d.calls; faults = d.faults } };
}

impl<S: Source + Drop, K: Sink + Drop> MemDialer<S, K> {
    /// A dialer of these connections. Call number k, counted from 0 and staying at 2^64 - 1, fails where k is in `fails`.
    pub fn new(alloc: Global, links: VecDeque<Link<S, K>>, fails: Vec<u64>) -> Self
        ensures { result ≡ record { links = links.items; opened = []; fails = fails.items; calls = 0; faults = 0 } }
    {
        MemDialer {
            alloc,
            links,
            opened: Vec::new(alloc),
            fails,
            calls: 0,
            faults: 0,
        }
    }

    /// The numbers of the connections that it opened.
    pub fn opened(&self) -> &[u64]
        ensures { result.now ≡ self.now.opened }
    {
        self.opened.as_slice()
    }

    // The first connection, noted as opened. None where none is left, and where there is no memory for the note.
    fn open(&mut self) -> Option<Link<S, K>>
        ensures some { IfSome result (λ link. Hands self.old.links self.new.links (Some link) × (self.new ≡ record self.old { links = self.new.links; opened = self.old.opened ++ link.number ∷ [] })) }
        ensures none { IfNone result (self.new ≡ self.old) }
    {
        let number = self.links.front()?.number;
        if self.opened.push(number).is_err() {
            return None;
        }
        take_first(&mut self.links)
    }
}

impl<S: Source + Drop, K: Sink + Drop> Dialer for MemDialer<S, K> {
    ghost use Rattle.std.specs.Prelude.{Some};

    type S = S;

    type K = K;

    ghost links = { λ d. Some d.opened };

    ghost calls = { λ d. d.calls };

    ghost faults = { λ d. d.faults };

    fn dial(&mut self, _place: &Place) -> Result<Link<S, K>, Failed>
        ensures gives { IfOk result (λ link. Gives (Some self.old.opened) (Some self.new.opened) (link.number ∷ [])) }
        ensures called { Rose self.old.calls self.new.calls }
        ensures calls_rise { self.old.calls ≤ self.new.calls }
        ensures rises { self.old.faults ≤ self.new.faults }
        ensures failed { OnErr result (Rose self.old.faults self.new.faults) }
        ensures kept { OnErr result (Some self.new.opened ≡ Some self.old.opened) }

        // The listed calls fail, and the others open the connections in their order.
        ensures fails { IsTrue (is_listed_in self.old.calls self.old.fails) → IsErr result }
        ensures given { IfOk result (λ link. Hands self.old.links self.new.links (Some link) × (self.new ≡ record self.old { links = self.new.links; opened = self.old.opened ++ link.number ∷ []; calls = counted self.old.calls })) }
        ensures fault { OnErr result (self.new ≡ record self.old { calls = counted self.old.calls; faults = counted self.old.faults }) }
    {
        let number = self.calls;
        self.calls = number.saturating_add(1);
        if !is_listed(number, &self.fails) {
            if let Some(link) = self.open() {
                return Ok(link);
            }
        }
        self.faults = self.faults.saturating_add(1);
        Err(Failed)
    }

    fn twin(&self) -> Result<Self, NoMemory>
        ensures { IfOk result (λ dialer. dialer ≡ record { links = []; opened = self.now.opened; fails = self.now.fails; calls = 0; faults = 0 }) }
    {
        Ok(MemDialer {
            alloc: self.alloc,
            links: VecDeque::new(self.alloc),
            opened: self.opened.clone()?,
            fails: self.fails.clone()?,
            calls: 0,
            faults: 0,
        })
    }
}
