//! Laws of the element actions on lists and on orders.

ghost use Rattle.std.specs.Prelude.{◌≡◌, List, true, Option};
ghost use Rattle.mos_edits.specs.Texts.{Text, same_id};
ghost use Rattle.mos_edits.specs.KeyedLists.{ListAction, Applied, act_list};
ghost use Rattle.mos_edits.specs.Actions.{Action, act};
ghost use Rattle.mos_edits.specs.Orders.{Story, Item, Order, shape, apply};
ghost use Rattle.mos_edits.specs.declared.edit.Edit.{Edit};
ghost use Rattle.mos_edits.specs.Distinct.{HasDistinctItems, HasDistinctIdsIf, ActionOk, BringsDistinctIds};
ghost use Rattle.mos_values.specs.Distinct.{AreDistinct, story_ids, item_ids};

/// Two identifiers are one exactly where they are equal.
pub fn one_identifier_is_equal()
    ensures only_equal { (q r : Text) → same_id q r ≡ true → q ≡ r }
    ensures itself { (r : Text) → same_id r r ≡ true }
{}

/// An action on a list whose elements have distinct identifiers leaves such a list.
pub fn actions_keep_identifiers_distinct()
    ensures of_stories { (action : ListAction Story) (xs ys : List Story) → AreDistinct (story_ids xs) → act_list shape.story_id action xs ≡ Applied.Done ys → AreDistinct (story_ids ys) }
    ensures of_items { (action : ListAction Item) (xs ys : List Item) → AreDistinct (item_ids xs) → act_list shape.item_id action xs ≡ Applied.Done ys → AreDistinct (item_ids ys) }
{}

/// SWAP done twice changes nothing of a list whose elements have distinct identifiers.
pub fn swap_twice_changes_nothing()
    ensures of_stories { (a b : Text) (xs ys : List Story) → AreDistinct (story_ids xs) → act_list shape.story_id (ListAction.Swap a b) xs ≡ Applied.Done ys → act_list shape.story_id (ListAction.Swap a b) ys ≡ Applied.Done xs }
    ensures of_items { (a b : Text) (xs ys : List Item) → AreDistinct (item_ids xs) → act_list shape.item_id (ListAction.Swap a b) xs ≡ Applied.Done ys → act_list shape.item_id (ListAction.Swap a b) ys ≡ Applied.Done xs }
{}

/// An action on an order keeps the identifiers of its stories distinct, and those of each story's items, where the items of
/// each story that it brings have distinct ones.
pub fn orders_keep_identifiers_distinct()
    ensures { (action : Action Story Item) (stories ys : List Story) → ActionOk action → AreDistinct (story_ids stories) × HasDistinctItems stories → act shape action stories ≡ Applied.Done ys → AreDistinct (story_ids ys) × HasDistinctItems ys }
{}

/// So does every edit.
pub fn edits_keep_identifiers_distinct()
    ensures { (r : Text) (o p : Option Order) (e : Edit) → HasDistinctIdsIf o → BringsDistinctIds e → apply r o e ≡ Applied.Done p → HasDistinctIdsIf p }
{}
