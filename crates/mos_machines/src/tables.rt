//! Laws of tables by roID: what code keeps as ascending rows stands for the functions of the machines' states.

ghost use Rattle.std.specs.Prelude.{◌≡◌, List};
ghost use Rattle.mos_edits.specs.Texts.{Text, set_order};
ghost use Rattle.mos_edits.specs.Entries.{insert_id};
ghost use Rattle.mos_machines.specs.Server.{View};
ghost use Rattle.mos_machines.specs.Tables.{KnownOrder, GateTables, PeerTables, look, put_row, row_ids, gate_of, with_row, peer_of};

/// A row that is written is the table's value at its roID from then on, every other stays, and the roIDs stay ascending.
pub fn written_rows_are_looked_up()
    ensures views { (rows : List (Text × View)) (r : Text) (v : View) → look View.Out (put_row r v rows) ≡ set_order (look View.Out rows) r v }
    ensures ids { (rows : List (Text × KnownOrder)) (r : Text) (v : KnownOrder) → row_ids (put_row r v rows) ≡ insert_id r (row_ids rows) }
    ensures gate { (g : GateTables) (r : Text) (v : KnownOrder) → gate_of (record g { orders = put_row r v g.orders }) ≡ with_row (gate_of g) r v }
    ensures peer { (p : PeerTables) (r : Text) (v : View) → peer_of (record p { views = put_row r v p.views }) ≡ record (peer_of p) { views = set_order (look View.Out p.views) r v } }
{}
