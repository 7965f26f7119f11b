//! The objects of a gateway.
ghost use Rattle.std.specs.Prelude.{◌≡◌, IfErr};
ghost use Rattle.program_ends.specs.Ends.{IsNoObjects};

use end_settings::GateSettings;
use mos_fields::NoMemory;
use mos_io::{Capped, StdSource};
use object_reading::read_objects;
use object_table::ObjectTable;
use program_ends::{FileOf, ProgramEnd, Why, path_of};
use std::alloc::Global;
use std::fs;
use std::rt::Files;

// The line of an end, with the objects' file.
fn objects_line(alloc: Global, end: ProgramEnd, path: &str) -> Result<String, NoMemory> {
    Ok(format!(in alloc; "{end}: objects {path}")?)
}

// The objects of an open file of at most so many bytes.
#[tactic(auto, using(program_ends::proofs::RunEnds::refused_objects))]
fn objects_from<F: std::io::Read + Drop>(
    alloc: Global,
    file: F,
    path: &str,
    budget: u64,
    why: &mut Why,
) -> Result<ObjectTable, ProgramEnd>
    ensures { IfErr result (λ end. IsNoObjects end) }
{
    let mut source = Capped::new(StdSource::new(file), budget);
    match read_objects(alloc, &mut source) {
        Ok(objects) => Ok(objects),
        Err(fault) => {
            let end = ProgramEnd::of_objects(fault);
            why.tell(objects_line(alloc, end, path));
            Err(end)
        }
    }
}

// The objects in a file of at most so many bytes.
fn objects_in<R: Files + AllocGlobal>(
    rt: &R,
    path: &str,
    budget: u64,
    why: &mut Why,
) -> Result<ObjectTable, ProgramEnd>
where
    R::File: Drop,
    ensures { IfErr result (λ end. IsNoObjects end) }
{
    match fs::open(rt, path) {
        Ok(file) => objects_from(rt.alloc(), file, path, budget, why),
        Err(fault) => {
            why.tell_file(rt.alloc(), FileOf::Objects, path, fault.kind());
            Err(ProgramEnd::NoFile(FileOf::Objects))
        }
    }
}

/// The objects of the settings; none where these name no file.
pub(crate) fn objects_of<R: Files + AllocGlobal>(
    rt: &R,
    settings: &GateSettings,
    why: &mut Why,
) -> Result<ObjectTable, ProgramEnd>
where
    R::File: Drop,
    ensures { IfErr result (λ end. IsNoObjects end) }
{
    match &settings.objects {
        None => Ok(ObjectTable::new(rt.alloc())),
        Some(path) => match path_of(rt.alloc(), path) {
            Ok(path) => objects_in(rt, path.as_str(), settings.budget, why),
            Err(_) => Err(ProgramEnd::NoMemory),
        },
    }
}
