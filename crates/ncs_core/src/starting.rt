//! The start of the server.
ghost use Rattle.std.specs.Prelude.{◌≡◌, ◌≤◌, [], ◌∷◌, ◌++◌, length, None, OnOk, IfOk, IfErr};
ghost use Rattle.mos_edits.specs.Entries.{acceptance, entry_of, IsAccepted};
ghost use Rattle.mos_machines.specs.Steps.{started};
ghost use Rattle.rundown_log.specs.Keeping.{AreKept, all_certain};
ghost use Rattle.script_numbers.specs.Numbers.{AreNumbers};
ghost use Rattle.ncs_core.specs.Accepting.{rows_after, rows_acceptance, IsRefusal};
ghost use Rattle.ncs_core.specs.Starting.{IsStartCause, IsEntryCause, IsLoadedFront, entry_cause_of, load_cause_of};
ghost use Rattle.ncs_core.specs.State.{ncs_of, devices_of, AreNew, AreOrders};

use crate::accepting::edit_order;
use crate::fault::{CommandFault, StartCause, StartFault};
use crate::looks::Looks;
use crate::ncs::Ncs;
use crate::orders::Orders;
use mos_fields::{NoMemory, let_go};
use rundown_log::{Entry, Journal, KeepFault, Keeper, edit_ro};
use script_numbers::ScriptNumbers;
use server_peer::Peer;
use std::alloc::Global;

// Devices without connections.
fn new_peers(alloc: Global, devices: u32) -> Result<Vec<Peer>, NoMemory>
    ensures length { IfOk result (λ peers. length peers.items ≡ devices) }
    ensures new { IfOk result (λ peers. AreNew peers.items) }
{
    let mut peers = Vec::new(alloc);
    'peers: while peers.len() < devices as usize {
        peers.push(Peer::new(alloc))?;
    }
    Ok(peers)
}

// Why an entry wasn't added.
fn entry_cause(number: u64, fault: CommandFault) -> StartCause
    ensures { result ≡ entry_cause_of number fault }
{
    match fault {
        CommandFault::NoMemory => StartCause::NoMemory,
        _ => StartCause::BadEntry { number },
    }
}

// Why the entries weren't loaded.
fn load_cause(fault: KeepFault) -> StartCause
    ensures { result ≡ load_cause_of fault }
{
    match fault {
        KeepFault::Failed => StartCause::StoreFault,
        KeepFault::NoMemory => StartCause::NoMemory,
    }
}

// Adds an entry to the orders, to the journal and to the scripts, where it is accepted. After an error all may be any.
fn add_to(
    orders: &mut Orders,
    journal: &mut Journal,
    scripts: &mut ScriptNumbers,
    entry: &Entry,
) -> Result<(), CommandFault>
    ensures rows { OnOk result (orders.new ≡ rows_after orders.old (entry_of entry.now.edit)) }
    ensures journal { OnOk result (journal.new ≡ journal.old ++ entry.now ∷ []) }
    ensures accepted { OnOk result (rows_acceptance orders.old (entry_of entry.now.edit) ≡ None) }
    ensures scripts { OnOk result (AreNumbers journal.old scripts.old → acceptance journal.old (entry_of entry.now.edit) ≡ None → AreNumbers (journal.old ++ entry_of entry.now.edit ∷ []) scripts.new) }
    ensures fault { IfErr result (λ f. IsRefusal (rows_acceptance orders.old (entry_of entry.now.edit)) f) }
{
    edit_order(journal.allocator(), orders, entry.edit())?;
    let number = journal.entry_count(edit_ro(entry.edit())) as u64;
    scripts.reserve(entry.edit())?;
    journal.add(entry)?;
    scripts.accept(entry.edit(), number);
    Ok(())
}

// The same by the journal that the orders are of.
fn add(
    orders: &mut Orders,
    journal: &mut Journal,
    scripts: &mut ScriptNumbers,
    entry: &Entry,
) -> Result<(), CommandFault>
    requires orders { AreOrders journal.old orders.old }
    requires scripts { AreNumbers journal.old scripts.old }
    ensures scripts { OnOk result (AreNumbers journal.new scripts.new) }
    ensures orders { OnOk result (AreOrders journal.new orders.new) }
    ensures journal { OnOk result (journal.new ≡ journal.old ++ entry.now ∷ []) }
    ensures accepted { OnOk result (acceptance journal.old entry.now ≡ None) }
    ensures fault { IfErr result (λ f. IsRefusal (acceptance journal.old entry.now) f) }
{
    entry.has_ro_of_edit();
    orders.has_ascending_ids();
    match add_to(orders, journal, scripts, entry) {
        Ok(()) => Ok(()),
        Err(fault) => Err(fault),
    }
}

// Adds entries that are kept behind those of the journal, one after the other. After an error orders and journal may be any.
fn add_all(
    orders: &mut Orders,
    journal: &mut Journal,
    scripts: &mut ScriptNumbers,
    entries: &[Entry],
) -> Result<(), StartCause>
    requires orders { AreOrders journal.old orders.old }
    requires scripts { AreNumbers journal.old scripts.old }
    requires accepted { IsAccepted [] journal.old }
    ensures scripts { OnOk result (AreNumbers journal.new scripts.new) }
    ensures orders { OnOk result (AreOrders journal.new orders.new) }
    ensures journal { OnOk result (journal.new ≡ journal.old ++ entries.now) }
    ensures accepted { OnOk result (IsAccepted [] (journal.old ++ entries.now)) }
    ensures fault { IfErr result (λ f. IsEntryCause (journal.old ++ entries.now) f) }
{
    let mut at = 0;
    'entries: while at < entries.len() {
        let number = journal.len() as u64;
        match add(orders, journal, scripts, &entries[at]) {
            Ok(()) => {}
            Err(fault) => return Err(entry_cause(number, fault)),
        }
        at += 1;
    }
    Ok(())
}

// Loads the entries that are kept behind those of the journal. After an error orders and journal may be any.
fn load_more<K: Keeper>(
    keeper: &mut K,
    orders: &mut Orders,
    journal: &mut Journal,
    scripts: &mut ScriptNumbers,
) -> Result<(), StartCause>
    requires orders { AreOrders journal.old orders.old }
    requires scripts { AreNumbers journal.old scripts.old }
    requires front { IsLoadedFront (K.kept keeper.old) journal.old }
    ensures scripts { OnOk result (AreNumbers journal.new scripts.new) }
    ensures orders { OnOk result (AreOrders journal.new orders.new) }
    ensures loaded { OnOk result (AreKept (K.kept keeper.old) journal.new) }
    ensures accepted { OnOk result (IsAccepted [] journal.new) }
    ensures kept { K.kept keeper.new ≡ K.kept keeper.old }
    ensures certainty { K.certainty keeper.new ≡ all_certain (K.kept keeper.old) }
    ensures keeper { K.loaded keeper.old keeper.new }
    ensures rises { K.faults keeper.old ≤ K.faults keeper.new }
    ensures fault { IfErr result (λ f. IsStartCause (K.kept keeper.old) (K.faults keeper.old) (K.faults keeper.new) f) }
{
    match keeper.load_behind(journal.len()) {
        Ok(entries) => add_all(orders, journal, scripts, entries.as_slice()),
        Err(fault) => Err(load_cause(fault)),
    }
}

impl<K: Keeper> Ncs<K> {
    // A server of these devices with this journal and its orders, once the entries are loaded that are kept behind those of
    // the journal.
    fn opened(
        keeper: K,
        journal: Journal,
        orders: Orders,
        scripts: ScriptNumbers,
        peers: Vec<Peer>,
    ) -> Result<Self, StartFault<K>>
        requires least { 1 ≤ length peers.items }
        requires most { length peers.items ≤ 64 }
        requires new { AreNew peers.items }
        requires orders { AreOrders journal orders }
        requires scripts { AreNumbers journal scripts }
        requires front { IsLoadedFront (K.kept keeper) journal }
        ensures state { IfOk result (λ n. ncs_of n ≡ started n.server.journal n.server.faults) }
        ensures devices { IfOk result (λ n. devices_of n ≡ length peers.items) }
        ensures loaded { IfOk result (λ n. AreKept (K.kept keeper) n.server.journal) }
        ensures accepted { IfOk result (λ n. IsAccepted [] n.server.journal) }
        ensures kept { IfOk result (λ n. n.kept ≡ K.kept keeper) }
        ensures keeper { IfOk result (λ n. K.loaded keeper n.keeper) }
        ensures rises { IfOk result (λ n. K.faults keeper ≤ n.server.faults) }
        ensures fault { IfErr result (λ f. IsStartCause (K.kept keeper) (K.faults keeper) (K.faults f.keeper) f.cause) }
        ensures kept_err { IfErr result (λ f. K.kept f.keeper ≡ K.kept keeper) }
        ensures rises_err { IfErr result (λ f. K.faults keeper ≤ K.faults f.keeper) }
    {
        let mut keeper = keeper;
        let mut journal = journal;
        let mut orders = orders;
        let mut scripts = scripts;
        match load_more(&mut keeper, &mut orders, &mut journal, &mut scripts) {
            Ok(()) => Ok(Ncs {
                keeper,
                journal,
                orders,
                peers,
                looks: Looks::new(),
                scripts,
                stopped: false,
            }),
            Err(cause) => {
                let_go(journal);
                let_go(orders);
                let_go(scripts);
                let_go(peers);
                Err(StartFault { keeper, cause })
            }
        }
    }

    // The same of this number of devices.
    fn begun(
        alloc: Global,
        keeper: K,
        journal: Journal,
        orders: Orders,
        scripts: ScriptNumbers,
        devices: u32,
    ) -> Result<Self, StartFault<K>>
        requires least { 1 ≤ devices }
        requires most { devices ≤ 64 }
        requires orders { AreOrders journal orders }
        requires scripts { AreNumbers journal scripts }
        requires front { IsLoadedFront (K.kept keeper) journal }
        ensures state { IfOk result (λ n. ncs_of n ≡ started n.server.journal n.server.faults) }
        ensures devices { IfOk result (λ n. devices_of n ≡ devices) }
        ensures loaded { IfOk result (λ n. AreKept (K.kept keeper) n.server.journal) }
        ensures accepted { IfOk result (λ n. IsAccepted [] n.server.journal) }
        ensures kept { IfOk result (λ n. n.kept ≡ K.kept keeper) }
        ensures keeper { IfOk result (λ n. K.loaded keeper n.keeper) }
        ensures rises { IfOk result (λ n. K.faults keeper ≤ n.server.faults) }
        ensures fault { IfErr result (λ f. IsStartCause (K.kept keeper) (K.faults keeper) (K.faults f.keeper) f.cause) }
        ensures kept_err { IfErr result (λ f. K.kept f.keeper ≡ K.kept keeper) }
        ensures rises_err { IfErr result (λ f. K.faults keeper ≤ K.faults f.keeper) }
    {
        match new_peers(alloc, devices) {
            Ok(peers) => Self::opened(keeper, journal, orders, scripts, peers),
            Err(NoMemory) => {
                let_go(journal);
                let_go(orders);
                let_go(scripts);
                Err(StartFault {
                    keeper,
                    cause: StartCause::NoMemory,
                })
            }
        }
    }

    /// The server of 1 to 64 devices after its start, with the entries that its keeper loads: no device is connected, and
    /// each order is as it is after all its entries.
    ///
    /// `StoreFault` comes only where the keeper failed and counted that. `BadEntry` comes exactly at the first entry that
    /// isn't accepted after those before it. The keeper keeps what it kept, and is given back with each error.
    pub fn start(alloc: Global, keeper: K, devices: u32) -> Result<Self, StartFault<K>>
        requires least { 1 ≤ devices }
        requires most { devices ≤ 64 }
        ensures state { IfOk result (λ n. ncs_of n ≡ started n.server.journal n.server.faults) }
        ensures devices { IfOk result (λ n. devices_of n ≡ devices) }
        ensures loaded { IfOk result (λ n. AreKept (K.kept keeper) n.server.journal) }
        ensures accepted { IfOk result (λ n. IsAccepted [] n.server.journal) }
        ensures kept { IfOk result (λ n. n.kept ≡ K.kept keeper) }
        ensures keeper { IfOk result (λ n. K.loaded keeper n.keeper) }
        ensures rises { IfOk result (λ n. K.faults keeper ≤ n.server.faults) }
        ensures fault { IfErr result (λ f. IsStartCause (K.kept keeper) (K.faults keeper) (K.faults f.keeper) f.cause) }
        ensures kept_err { IfErr result (λ f. K.kept f.keeper ≡ K.kept keeper) }
        ensures rises_err { IfErr result (λ f. K.faults keeper ≤ K.faults f.keeper) }
    {
        Self::begun(
            alloc,
            keeper,
            Journal::new(alloc),
            Orders::new(alloc),
            ScriptNumbers::new(alloc),
            devices,
        )
    }

    /// The server after a new start with its own keeper and as many devices, as `start` says: what it knew of the devices
    /// is forgotten, and it takes commands again.
    pub fn restart(self) -> Result<Self, StartFault<K>>
        ensures state { IfOk result (λ n. ncs_of n ≡ started n.server.journal n.server.faults) }
        ensures devices { IfOk result (λ n. devices_of n ≡ devices_of self) }
        ensures loaded { IfOk result (λ n. AreKept self.kept n.server.journal) }
        ensures accepted { IfOk result (λ n. IsAccepted [] n.server.journal) }
        ensures kept { IfOk result (λ n. n.kept ≡ self.kept) }
        ensures keeper { IfOk result (λ n. K.loaded self.keeper n.keeper) }
        ensures rises { IfOk result (λ n. self.server.faults ≤ n.server.faults) }
        ensures fault { IfErr result (λ f. IsStartCause self.kept self.server.faults (K.faults f.keeper) f.cause) }
        ensures kept_err { IfErr result (λ f. K.kept f.keeper ≡ self.kept) }
        ensures rises_err { IfErr result (λ f. self.server.faults ≤ K.faults f.keeper) }
    {
        // The keeper keeps the journal's entries at the front, so that only those behind them are loaded.
        let alloc = self.allocator();
        let devices = self.devices();
        let Ncs {
            keeper,
            journal,
            orders,
            peers,
            looks: _,
            scripts,
            stopped: _,
        } = self;
        let_go(peers);
        Self::begun(alloc, keeper, journal, orders, scripts, devices)
    }
}
