//! Laws of MOVE, SWAP, DELETE and INSERT on lists.
//!
//! Each law stands as the contract of a function that does nothing.

ghost use Rattle.std.specs.Prelude.{◌≡◌, ◌++◌, List, IsPermutation};
ghost use Rattle.mos_edits.specs.Texts.{Text};
ghost use Rattle.mos_edits.specs.KeyedLists.{ListAction, Applied, act_list};
ghost use Rattle.mos_edits.specs.Orders.{Story, Item, shape};
ghost use Rattle.mos_values.specs.Distinct.{AreDistinct, story_ids, item_ids};
ghost use Rattle.element_action.specs.Targets.{StandsFirst};

/// MOVE leaves the elements that were there, in another order.
pub fn move_keeps_elements()
    ensures of_stories { (target : Text) (sources : List Text) (xs ys : List Story) → AreDistinct (story_ids xs) → act_list shape.story_id (ListAction.Move target sources) xs ≡ Applied.Done ys → IsPermutation xs ys }
    ensures of_items { (target : Text) (sources : List Text) (xs ys : List Item) → AreDistinct (item_ids xs) → act_list shape.item_id (ListAction.Move target sources) xs ≡ Applied.Done ys → IsPermutation xs ys }
{}

/// So does SWAP.
pub fn swap_keeps_elements()
    ensures of_stories { (a b : Text) (xs ys : List Story) → AreDistinct (story_ids xs) → act_list shape.story_id (ListAction.Swap a b) xs ≡ Applied.Done ys → IsPermutation xs ys }
    ensures of_items { (a b : Text) (xs ys : List Item) → AreDistinct (item_ids xs) → act_list shape.item_id (ListAction.Swap a b) xs ≡ Applied.Done ys → IsPermutation xs ys }
{}

/// DELETE of elements that stand one behind another leaves the others, and INSERT of the same before what stood behind
/// them, or at the end, gives the list back.
pub fn insert_undoes_delete()
    ensures stories_deleted { (front gone rest : List Story) → AreDistinct (story_ids (front ++ (gone ++ rest))) → act_list shape.story_id (ListAction.Delete (story_ids gone)) (front ++ (gone ++ rest)) ≡ Applied.Done (front ++ rest) }
    ensures stories_back { (target : Text) (front gone rest : List Story) → AreDistinct (story_ids (front ++ (gone ++ rest))) → StandsFirst target (story_ids rest) → act_list shape.story_id (ListAction.Insert target gone) (front ++ rest) ≡ Applied.Done (front ++ (gone ++ rest)) }
    ensures items_deleted { (front gone rest : List Item) → AreDistinct (item_ids (front ++ (gone ++ rest))) → act_list shape.item_id (ListAction.Delete (item_ids gone)) (front ++ (gone ++ rest)) ≡ Applied.Done (front ++ rest) }
    ensures items_back { (target : Text) (front gone rest : List Item) → AreDistinct (item_ids (front ++ (gone ++ rest))) → StandsFirst target (item_ids rest) → act_list shape.item_id (ListAction.Insert target gone) (front ++ rest) ≡ Applied.Done (front ++ (gone ++ rest)) }
{}
