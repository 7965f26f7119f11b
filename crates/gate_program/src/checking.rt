//! A look at settings and objects, which listens nowhere.
ghost use Rattle.std.specs.Prelude.{◌≡◌, IfErr};
ghost use Rattle.program_ends.specs.Ends.{IsGateRunEnd};

use crate::objects::objects_of;
use crate::settings::settings_in;
use mos_fields::let_go;
use program_ends::{ProgramEnd, Why};
use std::rt::Files;

// The objects that the settings in this file name.
#[tactic(auto, using(program_ends::proofs::RunEnds::gate_settings, program_ends::proofs::RunEnds::gate_objects))]
fn count_objects<R: Files + AllocGlobal + Eprint>(
    rt: &R,
    path: &str,
    why: &mut Why,
) -> Result<usize, ProgramEnd>
where
    R::File: Drop,
    ensures { IfErr result (λ end. IsGateRunEnd end) }
{
    let given = match settings_in(rt, path, why) {
        Ok(given) => given,
        Err(end) => return Err(end),
    };
    match objects_of(rt, &given.settings, why) {
        Ok(objects) => {
            let count = objects.len();
            let_go(objects);
            Ok(count)
        }
        Err(end) => Err(end),
    }
}

/// Looks at the settings in this file and at the objects that they name, and says on standard output what is there. Else it
/// tells how the program would end. Nothing is listened at.
pub fn check_gateway<R: Files + AllocGlobal + Print + Eprint>(
    rt: &R,
    path: &str,
    why: &mut Why,
) -> Result<(), ProgramEnd>
where
    R::File: Drop,
    ensures { IfErr result (λ end. IsGateRunEnd end) }
{
    match count_objects(rt, path, why) {
        Ok(count) => {
            let of_objects = if count == 1 { "" } else { "s" };
            let _ = println!(rt; "{path}: {count} object{of_objects}");
            Ok(())
        }
        Err(end) => Err(end),
    }
}
