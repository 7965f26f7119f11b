//! The sizes of lists.

ghost use Rattle.std.specs.Prelude.{◌≡◌, List};
ghost use Rattle.mos_edits.specs.Orders.{OrderBody, StorySend, HeaderPatch};
ghost use Rattle.mos_edits.specs.Sizes.{list_units, list_all_units, send_units};
ghost use Rattle.mos_values.specs.Units.{units_in, list_events, list_all_events, send_events};
ghost use Rattle.mos_machines.specs.Small.{IsSmallOrder};

/// The code units by which an edit passes a limit are those of the canonical encodings: of the roList of the order, of
/// the roListAll of all orders, and of the roStorySend.
pub fn limits_count_canonical_encodings()
    ensures order { (o : OrderBody) → IsSmallOrder o → list_units o ≡ units_in (list_events o) }
    ensures orders { (hs : List HeaderPatch) → list_all_units hs ≡ units_in (list_all_events hs) }
    ensures script { (s : StorySend) → send_units s ≡ units_in (send_events s) }
{}
