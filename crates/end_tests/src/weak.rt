//! A runtime whose files fail at chosen calls.
use std::alloc::{Alloc, Allocator, Global};
use std::cell::Cell;
use std::fmt::Display;
use std::fs::{File, Metadata, OpenFile, OpenOptions};
use std::io;
use std::io::{Read, Seek, SeekFrom, Write};
use std::rt::Files;
use std::time::{Clock, Duration};

/// Which calls of a file fail: the write of this number, counted from 1, of which the first half is written; the sync of
/// this number; and the first so many cuts.
#[derive(Clone, Copy)]
pub struct Plan {
    pub write: u64,
    pub sync: u64,
    pub cuts: u64,
}

/// The files of the system, with failing calls.
#[derive(Clone, Copy)]
pub struct Weak {
    pub rt: HostRuntime,
    pub plan: Plan,
}

#[derive(Drop)]
pub struct WeakFile {
    inner: File,
    plan: Plan,
    writes: u64,
    syncs: Cell<u64>,
    cuts: Cell<u64>,
}

fn failed() -> io::Error {
    io::Error::from(io::ErrorKind::Other)
}

impl Read for WeakFile {
    fn read(&mut self, buf: &mut [u8]) -> io::Result<usize> {
        self.inner.read(buf)
    }
}

impl Write for WeakFile {
    fn write(&mut self, buf: &[u8]) -> io::Result<usize> {
        self.writes = self.writes.saturating_add(1);
        if self.writes == self.plan.write && buf.len() > 1 {
            return self.inner.write(&buf[..buf.len() / 2]);
        }
        if self.plan.write > 0 && self.writes - 1 == self.plan.write {
            return Err(failed());
        }
        self.inner.write(buf)
    }

    fn flush(&mut self) -> io::Result<()> {
        self.inner.flush()
    }
}

impl Seek for WeakFile {
    fn seek(&mut self, to: SeekFrom) -> io::Result<u64> {
        self.inner.seek(to)
    }
}

/// One more call of a kind.
fn count(calls: &Cell<u64>) -> u64 {
    let number = calls.get().saturating_add(1);
    calls.set(number);
    number
}

impl OpenFile for WeakFile {
    fn metadata(&self) -> io::Result<Metadata> {
        self.inner.metadata()
    }

    fn set_len(&self, size: u64) -> io::Result<()> {
        if count(&self.cuts) <= self.plan.cuts {
            return Err(failed());
        }
        self.inner.set_len(size)
    }

    fn sync_all(&self) -> io::Result<()> {
        self.inner.sync_all()
    }

    fn sync_data(&self) -> io::Result<()> {
        if count(&self.syncs) == self.plan.sync {
            return Err(failed());
        }
        self.inner.sync_data()
    }
}

impl Alloc for Weak {
    type A = Global;

    fn alloc(&self) -> Global {
        self.rt.alloc()
    }
}

impl Eprint for Weak {
    fn eprint<D: Display + Drop>(&self, value: D) -> io::Result<()> {
        self.rt.eprint(value)
    }

    fn eprintln<D: Display + Drop>(&self, value: D) -> io::Result<()> {
        self.rt.eprintln(value)
    }
}

impl Clock for Weak {
    fn monotonic(&self) -> io::Result<Duration> {
        self.rt.monotonic()
    }

    fn since_1970(&self) -> io::Result<Duration> {
        self.rt.since_1970()
    }

    fn sleep(&self, duration: Duration) {
        self.rt.sleep(duration)
    }
}

impl Files for Weak {
    type File = WeakFile;

    type Dir = <HostRuntime as Files>::Dir;

    fn open_file(&self, how: &OpenOptions, path: &str) -> io::Result<WeakFile> {
        let inner = self.rt.open_file(how, path)?;
        Ok(WeakFile {
            inner,
            plan: self.plan,
            writes: 0,
            syncs: Cell::new(0),
            cuts: Cell::new(0),
        })
    }

    fn open_dir(&self, path: &str) -> io::Result<Self::Dir> {
        self.rt.open_dir(path)
    }

    fn metadata(&self, path: &str) -> io::Result<Metadata> {
        self.rt.metadata(path)
    }

    fn symlink_metadata(&self, path: &str) -> io::Result<Metadata> {
        self.rt.symlink_metadata(path)
    }

    fn copy(&self, from: &str, to: &str) -> io::Result<u64> {
        self.rt.copy(from, to)
    }

    fn rename(&self, from: &str, to: &str) -> io::Result<()> {
        self.rt.rename(from, to)
    }

    fn remove_file(&self, path: &str) -> io::Result<()> {
        self.rt.remove_file(path)
    }

    fn create_dir(&self, path: &str) -> io::Result<()> {
        self.rt.create_dir(path)
    }

    fn remove_dir(&self, path: &str) -> io::Result<()> {
        self.rt.remove_dir(path)
    }

    fn remove_dir_all<B: Allocator>(&self, alloc: B, path: &str) -> io::Result<()> {
        self.rt.remove_dir_all(alloc, path)
    }
}
