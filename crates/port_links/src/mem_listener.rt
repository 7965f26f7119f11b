//! A listener in memory.
ghost use Rattle.std.specs.Prelude.{◌≡◌, ℕ, ◌↔◌, ◌≤◌, Some, IfOk, IsErr, IsTrue, OnErr, length};
ghost use Rattle.mos_io.specs.Counts.{Rose, counted};
ghost use Rattle.mos_io.specs.Memory.{is_listed as is_listed_in};
ghost use Rattle.port_links.specs.Links.{Accepts};
ghost use Rattle.port_links.specs.Memory.{Hands};

use crate::link::Link;
use crate::listed::{is_listed, take_first};
use crate::listener::Listener;
use mos_io::{Failed, Sink, Source};
use std::collections::VecDeque;
use std::marker::Model;

/// Gives the connections of a list, the first one first, and fails at chosen calls.
#[derive(Drop)]
pub struct MemListener<S: Source + Drop, K: Sink + Drop> {
    links: VecDeque<Link<S, K>>,
    fails: Vec<u64>,
    call: u64,
    faults: u64,
}

impl<S: Source + Drop, K: Sink + Drop> Model for MemListener<S, K> {
    ghost use Rattle.port_links.specs.Memory.{MemoryListener};
    ghost use Rattle.port_links.specs.declared.link.Link.{Link as LinkOf};

    ghost Value = { MemoryListener (LinkOf S K) };

    ghost view = { λ l. record { links = l.links.items; fails = l.fails.items; call = l.call; faults = l.faults } };
}

impl<S: Source + Drop, K: Sink + Drop> MemListener<S, K> {
    /// A listener of these connections. Call number k, counted from 0 and staying at 2^64 - 1, fails where k is in
    /// `fails`.
    pub fn new(links: VecDeque<Link<S, K>>, fails: Vec<u64>) -> Self
        ensures { result ≡ record { links = links.items; fails = fails.items; call = 0; faults = 0 } }
    {
        MemListener {
            links,
            fails,
            call: 0,
            faults: 0,
        }
    }
}

impl<S: Source + Drop, K: Sink + Drop> Listener for MemListener<S, K> {
    ghost use Rattle.std.specs.Prelude.{Some, length};

    type S = S;

    type K = K;

    ghost coming = { λ l. Some (length l.links) };

    ghost faults = { λ l. l.faults };

    fn accept(&mut self) -> Result<Option<Link<S, K>>, Failed>
        ensures gives { IfOk result (λ link. Accepts (Some (length self.old.links)) (Some (length self.new.links)) link) }
        ensures rises { self.old.faults ≤ self.new.faults }
        ensures failed { OnErr result (Rose self.old.faults self.new.faults) }
        ensures kept { OnErr result (Some (length self.new.links) ≡ Some (length self.old.links)) }

        // Exactly the listed calls fail, and the others give the connections in their order.
        ensures fails { IsErr result ↔ IsTrue (is_listed_in self.old.call self.old.fails) }
        ensures given { IfOk result (λ link. Hands self.old.links self.new.links link × (self.new ≡ record self.old { links = self.new.links; call = counted self.old.call })) }
        ensures fault { OnErr result (self.new ≡ record self.old { call = counted self.old.call; faults = counted self.old.faults }) }
    {
        let number = self.call;
        self.call = number.saturating_add(1);
        if is_listed(number, &self.fails) {
            self.faults = self.faults.saturating_add(1);
            return Err(Failed);
        }
        Ok(take_first(&mut self.links))
    }
}
