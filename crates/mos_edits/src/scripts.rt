//! Laws of scripts: where they stand, and which entries brought them.

ghost use Rattle.std.specs.Prelude.{◌≡◌, ℕ, ◌<◌, ◌≤◌, List, [], true, false, Option, Some};
ghost use Rattle.mos_edits.specs.Texts.{Text, has_id};
ghost use Rattle.mos_edits.specs.KeyedLists.{ActFault, Applied};
ghost use Rattle.mos_edits.specs.Orders.{Order, StorySend, apply};
ghost use Rattle.mos_edits.specs.declared.edit.Edit.{Edit};
ghost use Rattle.mos_edits.specs.Rows.{find_row};
ghost use Rattle.mos_edits.specs.Scripts.{story_ids_of, scripts_of, has_number};
ghost use Rattle.mos_edits.specs.Entries.{Entry, entry_count, edit_at, order_at, in_force, IsAccepted};
ghost use Rattle.mos_edits.specs.declared.edit.Edit.TheVariants.{Script};
ghost use Rattle.mos_values.specs.Distinct.{story_ids};

/// A roStorySend of a story that is there puts its script on it in place of a former one, and leaves all else. Where the story
/// isn't there, it is missing.
pub fn scripts_join_their_stories()
    ensures there { (r : Text) (o : Order) (p : Option Order) (s : StorySend) → apply r (Some o) (Script s) ≡ Applied.Done p → (q : Order) × (p ≡ Some q) × (q.header ≡ o.header) × (q.stories ≡ o.stories) × (find_row s.story q.scripts ≡ Some s) }
    ensures missing { (r : Text) (o : Order) (s : StorySend) → has_id s.story (story_ids o.stories) ≡ false → apply r (Some o) (Script s) ≡ Applied.Fault (ActFault.Missing s.story) }
{}

/// In a journal whose entries were all accepted, each script of an order stands on a story that is there, under its storyID.
pub fn scripts_stand_on_stories()
    ensures { (journal : List Entry) → IsAccepted [] journal → (r : Text) (m : ℕ) → m ≤ entry_count journal r → (story : Text) (s : StorySend) → find_row story (scripts_of (order_at journal r m)) ≡ Some s → (has_id story (story_ids_of (order_at journal r m)) ≡ true) × (s.story ≡ story) }
{}

/// The entries in force are those whose scripts stand: the script of each stands on its story, and each script that stands is
/// that of one of them.
pub fn scripts_in_force_stand()
    ensures stand { (journal : List Entry) → IsAccepted [] journal → (r : Text) (m k : ℕ) → m ≤ entry_count journal r → has_number k (in_force journal r m) ≡ true → (s : StorySend) × (k < m) × (edit_at journal r k ≡ Script s) × (find_row s.story (scripts_of (order_at journal r m)) ≡ Some s) }
    ensures all { (journal : List Entry) → IsAccepted [] journal → (r : Text) (m : ℕ) → m ≤ entry_count journal r → (story : Text) (s : StorySend) → find_row story (scripts_of (order_at journal r m)) ≡ Some s → (k : ℕ) × (has_number k (in_force journal r m) ≡ true) × (edit_at journal r k ≡ Script s) }
{}
