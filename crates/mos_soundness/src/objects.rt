//! Media objects and machines.
ghost use Rattle.std.specs.Prelude.{◌↔◌, IsTrue};
ghost use Rattle.std.specs.List.{AllByRecursion};
ghost use Rattle.mos_tables.specs.declared.table.Table.TheVariants as tables;
ghost use Rattle.mos_values.specs.Sound.{AllFit, IsSoundObject};
ghost use Rattle.mos_values.specs.Views.{mach_rest_events};

use crate::fields::pieces_fit;
use mos_tables::Table;
use mos_values::{MachInfo, MosObj, mach_rest_pieces, mos_obj_pieces};

/// Whether each raw element of the object may stand where it does.
pub fn is_sound_object(object: &MosObj) -> bool
    ensures { IsTrue result ↔ IsSoundObject object.now }
{
    pieces_fit(Table::MosObj, &mos_obj_pieces(object))
}

/// Whether each raw element of these objects may stand where it does.
pub fn are_sound_objects(objects: &[MosObj]) -> bool
    ensures { IsTrue result ↔ AllByRecursion IsSoundObject objects.now }
{
    for object in objects {
        if !is_sound_object(object) {
            return false;
        }
    }
    true
}

/// Whether each raw element of what a machine says of itself may stand where it does.
pub fn is_sound_machine(info: &MachInfo) -> bool
    ensures { IsTrue result ↔ AllFit tables.ListMachInfo (mach_rest_events info.now) }
{
    pieces_fit(Table::ListMachInfo, &mach_rest_pieces(info))
}
