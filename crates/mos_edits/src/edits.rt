//! Laws of the seven kinds of edit: all that the machines need to know of what edits do.

ghost use Rattle.std.specs.Prelude.{◌≡◌, Option, Some, None};
ghost use Rattle.mos_edits.specs.Texts.{Text};
ghost use Rattle.mos_edits.specs.KeyedLists.{ActFault, Applied};
ghost use Rattle.mos_edits.specs.Orders.{Order, OrderBody, order_of, apply};
ghost use Rattle.mos_edits.specs.declared.edit.Edit.{Edit};
ghost use Rattle.mos_edits.specs.declared.edit.Edit.TheVariants.{Create};
ghost use Rattle.mos_edits.specs.Entries.{Kind, kind, body_of};

/// A whole-order edit (roCreate, roReplace, roDelete) that applies leaves what it says, whatever was there.
pub fn whole_order_edits_give_their_body()
    ensures { (r : Text) (o p : Option Order) (e : Edit) → kind e ≡ Kind.IsWhole → apply r o e ≡ Applied.Done p → p ≡ body_of e }
{}

/// READY and NOT READY change nothing.
pub fn ready_changes_nothing()
    ensures ready { (r : Text) (o p : Option Order) (e : Edit) → kind e ≡ Kind.IsReady → apply r o e ≡ Applied.Done p → p ≡ o }
    ensures not_ready { (r : Text) (o p : Option Order) (e : Edit) → kind e ≡ Kind.IsNotReady → apply r o e ≡ Applied.Done p → p ≡ o }
{}

/// roCreate makes an order where none is there. Where one is there, the roID is already there.
pub fn create_makes_an_order()
    ensures none { (r : Text) (body : OrderBody) → apply r None (Create body) ≡ Applied.Done (Some (order_of body)) }
    ensures there { (r : Text) (o : Order) (body : OrderBody) → apply r (Some o) (Create body) ≡ Applied.Fault (ActFault.AlreadyThere r) }
{}

/// Every other edit of an order that isn't there misses it.
pub fn other_edits_need_an_order()
    ensures { (r : Text) (e : Edit) → ((body : OrderBody) → e ≡ Create body → ⊥) → apply r None e ≡ Applied.Fault (ActFault.Missing r) }
{}
