//! A keeper in memory that fails at a chosen append, and a journal over it.
ghost use Rattle.std.specs.Prelude.{IfOk};
ghost use Rattle.mos_machines.specs.Values.{edit_message};
ghost use Rattle.mos_values.specs.Sound.{IsSound};

use crate::letters::id;
use mos_edits::Edit;
use mos_fields::{Air, FieldFault, Id, let_go};
use rundown_log::{Journal, KeepFault, Keeper, MemKeeper};
use std::alloc::Global;
use std::process::Abort;
use std::test::Fail;

/// READY of an order that is named by one letter.
#[tactic(auto, unfolding(mos_values::specs::Sound::IsSound))]
pub fn ready(alloc: Global, name: char) -> Result<Edit, FieldFault>
    ensures { IfOk result (λ e. IsSound (edit_message e)) }
{
    Ok(Edit::Air {
        ro: id(alloc, name)?,
        air: Air::Ready,
    })
}

/// Keeps READY of an order that is named by one letter.
pub fn keep_ready(
    alloc: Global,
    journal: &mut Journal,
    keeper: &mut MemKeeper,
    name: char,
) -> Result<Result<(), KeepFault>, FieldFault> {
    let edit = ready(alloc, name)?;
    let kept = journal.keep(keeper, &edit);
    let_go(edit);
    Ok(kept)
}

// How many entries a keeper loads.
fn loaded(keeper: &mut MemKeeper) -> Result<usize, Fail> {
    let entries = keeper.load()?;
    let count = entries.len();
    let_go(entries);
    Ok(count)
}

// Whether these entries are kept, one by one.
fn keep_all(
    alloc: Global,
    journal: &mut Journal,
    keeper: &mut MemKeeper,
    names: &str,
) -> Result<bool, FieldFault> {
    for name in names.chars() {
        if keep_ready(alloc, journal, keeper, name)? != Ok(()) {
            return Ok(false);
        }
    }
    Ok(true)
}

// Whether a journal of READY of R, S and R finds them.
fn finds(journal: &Journal, first: &Id, second: &Id) -> bool {
    journal.len() == 3
        && journal.entry_count(first) == 2
        && journal.find(first, 1) == Some(2)
        && journal.find(first, 2) == None
        && journal.at(1).ro().is(second)
}

#[test]
fn entries_are_found_by_order_and_number(rt: HostRuntime) -> Result<(), Fail> {
    let alloc = rt.alloc();
    let (first, second) = (id(alloc, 'R')?, id(alloc, 'S')?);
    let mut keeper = MemKeeper::new(alloc, Vec::new(alloc), false);
    let mut journal = Journal::new(alloc);
    let kept = keep_all(alloc, &mut journal, &mut keeper, "RSR");
    let found = finds(&journal, &first, &second);
    let_go(journal);
    let_go(keeper);
    assert!(rt; kept? && found);
    Ok(())
}

fn settle_appends(
    rt: &impl Abort,
    alloc: Global,
    journal: &mut Journal,
    keeper: &mut MemKeeper,
) -> Result<(), Fail> {
    assert_eq!(rt; keep_ready(alloc, journal, keeper, 'R')?, Ok(()));
    assert_eq!(rt;
        keep_ready(alloc, journal, keeper, 'S')?,
        Err(KeepFault::Failed)
    );
    assert_eq!(rt; journal.len(), 1);
    assert_eq!(rt; keeper.entries().len(), 1);
    keeper.settle(true);
    assert_eq!(rt; keeper.entries().len(), 2);
    keeper.settle(false);
    assert_eq!(rt; keeper.entries().len(), 1);
    keeper.settle(true);
    assert_eq!(rt; loaded(keeper)?, 2);
    keeper.settle(false);
    assert_eq!(rt; loaded(keeper)?, 2);
    keeper.fail_next();
    assert_eq!(rt;
        keep_ready(alloc, journal, keeper, 'T')?,
        Err(KeepFault::Failed)
    );
    assert_eq!(rt; keeper.entries().len(), 2);
    Ok(())
}

#[test]
fn a_failed_append_stands_only_once_settled(rt: HostRuntime) -> Result<(), Fail> {
    let alloc = rt.alloc();
    let fails = Vec::from_slice(alloc, &[1u64])?;
    let mut keeper = MemKeeper::new(alloc, fails, false);
    let mut journal = Journal::new(alloc);
    let settled = settle_appends(&rt, alloc, &mut journal, &mut keeper);
    let_go(journal);
    let_go(keeper);
    settled
}
