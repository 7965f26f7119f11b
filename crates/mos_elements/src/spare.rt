//! Memory of records that have ended, for records that begin later.
ghost use Rattle.std.specs.Prelude.{◌≡◌, [], IfOk};
ghost use Rattle.mos_columns.specs.Counts.{counts_of};

use crate::child::Child;
use mos_columns::restart_counts;
use mos_fields::NoMemory;
use mos_tables::Column;
use std::alloc::Global;

/// The memory of a record that has ended, whatever stands in it.
#[derive(Drop)]
pub struct Spare {
    counts: Vec<usize>,
    before: Vec<Child>,
}

/// How many children the memory of a record that is kept may hold.
const KEPT: usize = 64;

/// Keeps the memory of a record that has ended, unless it is large. Where there is none to keep it in, it is let go.
pub fn keep(spares: &mut Vec<Spare>, counts: Vec<usize>, before: Vec<Child>) {
    let mut before = before;
    before.clear();
    if before.capacity() <= KEPT {
        let _kept = spares.push(Spare { counts, before });
    }
}

/// Memory of a record that has ended, if some was kept.
pub fn take_spare(alloc: Global, spares: &mut Vec<Spare>) -> Spare {
    match spares.pop() {
        Some(spare) => spare,
        None => Spare {
            counts: Vec::new(alloc),
            before: Vec::new(alloc),
        },
    }
}

impl Spare {
    /// The counts and the children of a record that begins: it has seen no field. The only error is that memory runs out.
    pub fn start(self, columns: &[Column]) -> Result<(Vec<usize>, Vec<Child>), NoMemory>
        ensures counts { IfOk result (λ r. r.0.items ≡ counts_of columns.now []) }
        ensures before { IfOk result (λ r. r.1.items ≡ []) }
    {
        let mut counts = self.counts;
        let mut before = self.before;
        restart_counts(columns, &mut counts)?;
        before.clear();
        before.reserve(columns.len())?;
        Ok((counts, before))
    }
}
