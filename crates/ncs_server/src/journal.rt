//! The journal of a server.
ghost use Rattle.std.specs.Prelude.{◌≡◌, IfErr};
ghost use Rattle.program_ends.specs.Ends.{IsNoFile};
ghost use Rattle.program_ends.specs.declared.program_end.FileOf.TheVariants.{Log};

use end_settings::ServerSettings;
use file_keeper::FileKeeper;
use program_ends::{FileOf, ProgramEnd, Why, path_of, taken_line};
use rundown_log::KeepFault;
use std::fs::{File, OpenOptions, TryLockError};

/// The keeper of the journal.
pub(crate) fn keeper_of(
    rt: &HostRuntime,
    settings: &ServerSettings,
) -> Result<FileKeeper<HostRuntime>, ProgramEnd>
    ensures { IfErr result (λ end. IsNoFile Log end) }
{
    let Ok(path) = path_of(rt.alloc(), &settings.log) else {
        return Err(ProgramEnd::NoMemory);
    };
    match FileKeeper::open(rt, path.as_str()) {
        Ok(keeper) => Ok(keeper),
        Err(KeepFault::NoMemory) => Err(ProgramEnd::NoMemory),
        Err(KeepFault::Failed) => Err(ProgramEnd::NoFile(FileOf::Log)),
    }
}

// The journal's file, which is made where there is none.
fn opened(rt: &HostRuntime, path: &str, why: &mut Why) -> Result<File, ProgramEnd>
    ensures { IfErr result (λ end. IsNoFile Log end) }
{
    let opened = OpenOptions::new()
        .read(true)
        .append(true)
        .create(true)
        .open(rt, path);
    match opened {
        Ok(file) => Ok(file),
        Err(fault) => {
            why.tell_file(rt.alloc(), FileOf::Log, path, fault.kind());
            Err(ProgramEnd::NoFile(FileOf::Log))
        }
    }
}

// The file with a lock on it, where its file system has locks.
fn locked(rt: &HostRuntime, path: &str, file: File, why: &mut Why) -> Result<File, ProgramEnd>
    ensures { IfErr result (λ end. IsNoFile Log end) }
{
    match file.try_lock() {
        Err(TryLockError::WouldBlock) => {
            why.tell(taken_line(rt.alloc(), path));
            Err(ProgramEnd::NoFile(FileOf::Log))
        }
        Ok(()) | Err(TryLockError::Error(_)) => Ok(file),
    }
}

/// A lock on the journal, which lasts as long as the value. Where the journal's file system has no locks, there is none.
pub(crate) fn lock_of(
    rt: &HostRuntime,
    settings: &ServerSettings,
    why: &mut Why,
) -> Result<File, ProgramEnd>
    ensures { IfErr result (λ end. IsNoFile Log end) }
{
    let Ok(path) = path_of(rt.alloc(), &settings.log) else {
        return Err(ProgramEnd::NoMemory);
    };
    match opened(rt, path.as_str(), why) {
        Ok(file) => locked(rt, path.as_str(), file, why),
        Err(end) => Err(end),
    }
}
