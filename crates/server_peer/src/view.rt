//! What the server takes a device to hold of one order.
ghost use Rattle.std.specs.Prelude.{◌≡◌, true};
ghost use Rattle.mos_machines.specs.Server.{View as ServerView, settled as settled_of, unlisted as unlisted_of, view_given, view_if, view_without};
ghost use Rattle.server_peer.specs.Parts.{AreBelow, HasEarlier, after_view, others, shown_view, view_with};

use crate::after::After;
use crate::ready::is_ready_before;
use mos_fields::Id;
use rundown_log::Journal;
use std::alloc::Global;
use std::marker::Model;

/// What the server takes a device to hold of an order. Entries of an order are numbered from 0.
#[derive(Clone, Copy, Debug, PartialEq, Eq)]
pub enum View {
    /// Nothing that the server knows of.
    Out,
    /// A list of `m` entries that is on its way.
    Listed { m: u64 },
    /// The order after `n` entries, of which this many scripts are first sent again; `again` says that the READY before
    /// entry `n` is sent again then.
    In { n: u64, again: bool, scripts: u64 },
    /// Nothing before the whole-order edit `k`.
    From { k: u64 },
}

// The same without the scripts.
#[derive(Clone, Copy)]
pub enum Held {
    Out,
    Listed { m: u64 },
    In { n: u64, again: bool },
    From { k: u64 },
}

// The view in a row, with the numbers of the entries whose scripts are due behind a list, in the order of the stories.
#[derive(Drop)]
pub struct Seen {
    pub(crate) held: Held,
    pub(crate) scripts: Vec<u64>,
}

impl Model for Seen {
    ghost use Rattle.mos_machines.specs.Server.{View as ServerView};
    ghost use Rattle.server_peer.specs.Parts.{HasEarlier, view_with};

    ghost Value = { ServerView };

    ghost view = { λ s. view_with s.held s.scripts.items };

    ghost invariant = { λ s. HasEarlier (view_with s.held s.scripts.items) };
}

// Takes a number out of a list.
fn take_out(numbers: &mut Vec<u64>, k: u64)
    ensures { numbers.new.items ≡ others k numbers.old.items }
{
    numbers.retain(|number| k != *number);
}

impl Seen {
    // The row of an order of which nothing is known.
    pub fn out(alloc: Global) -> Self
        ensures { result ≡ ServerView.Out }
    {
        Seen {
            held: Held::Out,
            scripts: Vec::new(alloc),
        }
    }

    // A list of `m` entries is on its way; the scripts of these are due behind it.
    pub fn listed(m: u64, scripts: Vec<u64>) -> Self
        requires { AreBelow m scripts.items }
        ensures { result ≡ ServerView.Listed m scripts.items }
    {
        Seen {
            held: Held::Listed { m },
            scripts,
        }
    }

    // The law of the type: the scripts that are due are of entries that the list has.
    pub fn has_earlier_scripts(&self)
        ensures { HasEarlier self.now }
    {
        let _scripts = &self.scripts;
    }

    // What is shown of it.
    pub fn shown(&self) -> View
        ensures { result ≡ shown_view self.now }
    {
        match self.held {
            Held::Out => View::Out,
            Held::Listed { m } => View::Listed { m },
            Held::In { n, again } => View::In {
                n,
                again,
                scripts: self.scripts.len() as u64,
            },
            Held::From { k } => View::From { k },
        }
    }

    // The device's connection was replaced: no list is on its way any more.
    pub fn unlist(&mut self)
        ensures { self.new ≡ unlisted_of self.old }
    {
        match self.held {
            Held::Listed { m: _ } => self.held = Held::Out,
            _ => {}
        }
    }

    // A message was heard: a heartbeat says that the device took a list that was on its way, another that it may not have.
    pub fn settle(&mut self, journal: &Journal, beat: bool, ro: &Id)
        ensures { self.new ≡ settled_of journal.now beat ro.now self.old }
    {
        match self.held {
            Held::Listed { m } if beat => {
                self.held = Held::In {
                    n: m,
                    again: is_ready_before(journal, ro, m),
                };
            }
            Held::Listed { m: _ } => self.held = Held::Out,
            _ => {}
        }
    }

    // An entry was answered: the device holds the order after `n` entries, or nothing that is known.
    fn step_entry(&mut self, taken: bool, n: u64)
        ensures { self.new ≡ view_if taken n }
    {
        self.scripts.clear();
        if taken {
            self.held = Held::In { n, again: false };
        } else {
            self.held = Held::Out;
        }
    }

    // The script of entry `k` was answered: it is no longer due, or nothing is known.
    fn step_script(&mut self, taken: bool, k: u64)
        ensures { self.new ≡ view_without taken k self.old }
    {
        if taken {
            self.drop_script(k);
        } else {
            self.held = Held::Out;
        }
    }

    fn drop_script(&mut self, k: u64)
        ensures { self.new ≡ view_without true k self.old }
    {
        match self.held {
            Held::In { n: _, again: _ } => take_out(&mut self.scripts, k),
            _ => self.held = Held::Out,
        }
    }

    // A whole-order edit was accepted, which is entry `n`: it is due where nothing is known.
    fn step_given(&mut self, n: u64)
        ensures { self.new ≡ view_given true n self.old }
    {
        match self.held {
            Held::Out => self.held = Held::From { k: n },
            _ => {}
        }
    }

    // The view after an answer, or after a whole-order edit was given.
    pub fn step(&mut self, after: After)
        ensures { self.new ≡ after_view after self.old }
    {
        match after {
            After::Entry { taken, n } => self.step_entry(taken, n),
            After::Script { taken, k } => self.step_script(taken, k),
            After::Given { n } => self.step_given(n),
        }
    }
}
