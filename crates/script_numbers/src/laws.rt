//! Laws of the numbers.
ghost use Rattle.std.specs.Prelude.{◌≡◌, ℕ, List, Some};
ghost use Rattle.mos_edits.specs.Texts.{Text};
ghost use Rattle.mos_edits.specs.Orders.{Order};
ghost use Rattle.mos_edits.specs.Entries.{Entry, entry_count, order_at, order_now, in_force};
ghost use Rattle.mos_edits.specs.Scripts.{story_ids_of};
ghost use Rattle.mos_values.specs.Distinct.{AreDistinct, story_ids};
ghost use Rattle.script_numbers.specs.Numbers.{AreBelow, StandOnce};

/// The scripts that stand after the first entries of an order are those of some of these entries.
pub fn numbers_are_entries()
    ensures { (journal : List Entry) (r : Text) (m : ℕ) → AreBelow m (in_force journal r m) }
{}

/// Where no two stories of the order have the same storyID, no two of these scripts are of the same entry.
pub fn numbers_stand_once()
    ensures at { (journal : List Entry) (r : Text) (m : ℕ) → AreDistinct (story_ids_of (order_at journal r m)) → StandOnce (in_force journal r m) }
    ensures now { (journal : List Entry) (r : Text) (o : Order) → order_now journal r ≡ Some o → AreDistinct (story_ids o.stories) → StandOnce (in_force journal r (entry_count journal r)) }
{}
