//! Tests of every row.
ghost use Rattle.std.specs.Prelude.{◌≡◌};
ghost use Rattle.std.specs.List.{filter};

use mos_fields::Id;

/// A test of rows by their roIDs. It takes no memory.
pub trait RowTest {
    ghost use Rattle.std.specs.Prelude.{List, ℕ, Bool};

    // Whether the row of a roID is kept.
    ghost kept: { Self → List ℕ → Bool };

    /// Whether the row of this roID is kept.
    fn keeps(&self, ro: &Id) -> bool
        ensures { result ≡ kept self.now ro.now };
}

// Takes out each row that isn't kept.
pub fn retain_in<T: Drop, C: RowTest>(rows: &mut Vec<(Id, T)>, test: &C)
    ensures { rows.new.items ≡ filter (λ row. C.kept test.now row.0) rows.old.items }
{
    rows.retain(|row| test.keeps(&row.0));
}
