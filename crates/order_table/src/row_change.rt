//! Changes of every row.
ghost use Rattle.std.specs.Prelude.{◌≡◌};
ghost use Rattle.mos_edits.specs.Rows.{map_rows};

use mos_fields::Id;

/// A change of the values of a table, each by itself. It takes no memory.
pub trait RowChange<T> {
    ghost use Rattle.std.specs.Prelude.{List, ℕ};

    // What becomes of the value in the row of a roID.
    ghost changed: { Self → List ℕ → T → T };

    /// Changes the value in the row of this roID.
    fn change(&self, ro: &Id, value: &mut T)
        ensures { value.new ≡ changed self.now ro.now value.old };
}

// Changes the value of each row.
pub fn change_rows<T, C: RowChange<T>>(rows: &mut [(Id, T)], change: &C)
    ensures { rows.new ≡ map_rows (C.changed change.now) rows.old }
{
    for row in rows.iter_mut() {
        change.change(&row.0, &mut row.1);
    }
}
