//! What the program says of itself.

const HELP: &str = "A newsroom system's server: keeps running orders, takes editors' commands, and
keeps every gateway's copy in step (MOS Protocol 2.8.5, Profiles 0, 1, 2, 4).

usage: ncs_server FILE
       ncs_server --check FILE   looks at the settings and the journal, says
                                 what is there, and changes nothing
       ncs_server --help         says this
       ncs_server --version      says which version this is

FILE is TOML:
  ncs_id   the newsroom system's ID; required
  log      the path of the journal, a file that is made where there is none;
           required
  devices  an array of 1 to 64 tables, one for each gateway; required
             mos_id  the device's ID; required, and no other table has it
             host    where it is found, a name or an address; required
             upper   its port for running orders, 10541 unless given
             lower   its port for objects, 10540 unless given
  upper    the port for running orders, 10541 unless given
  lower    the port for objects, 10540 unless given
  editor   the port for editors, 10560 unless given
  listen   the address that these three ports listen at, in numbers: 127.0.0.1
           for this machine alone, :: for version 6; 0.0.0.0 unless given,
           every address of version 4 that the machine has
  budget   how many bytes of one connection are read, 1073741824 unless given
Other keys are named on standard error, and not used.

No port asks for a password: whoever reaches the editors' port can change every
running order. Listen where only those connect who may.

It dials each device's two ports. A command is in the journal, on the disk,
before it is answered OK. One server at a time has a journal.

On standard error it says, a line each: what may be a mistake in the settings,
what it serves with, which connections come and why they end, which dials fail,
and at last how it ended itself, with the file, the line or table, and the cause.

The program ends with
  0  no further connection can come; with --check, all is well
  1  Usage: the words aren't one file, or --check and one file
  2  NoFile, NoPort: the settings' file, the journal or a port can't be opened,
     or another server has the journal
  3  the settings are refused: NotToml, or the first key that is Missing or has
     a BadValue
  4  ListenFault: a port failed
  5  NoWorker: a thread couldn't be started
  6  StoreFault: the journal can't be read or is damaged; nothing of it was
     changed
  7  BadEntry: this entry of the journal, counted from 0, isn't accepted after
     those before it
  8  NoMemory: there was no memory
";

const VERSION: &str = "ncs_server 0.1.0, MOS Protocol 2.8.5
";

/// The line on words that the program doesn't take.
pub(crate) const USAGE: &str = "Usage: ncs_server FILE; ncs_server --help says more";

/// What the words behind the program's name ask for.
pub(crate) enum Asked<'a> {
    /// This text.
    About(&'static str),
    /// A look at the settings in this file.
    Check(&'a str),
    /// A run.
    Run,
    /// Nothing that there is.
    Usage,
}

// What one word asks for.
fn asked_by(word: &str) -> Asked<'_> {
    match word {
        "--help" => Asked::About(HELP),
        "--version" => Asked::About(VERSION),
        _ if word.starts_with('-') => Asked::Usage,
        _ => Asked::Run,
    }
}

/// What words ask for. A word that begins with a minus sign is no file.
pub(crate) fn asked_for(words: &[String]) -> Asked<'_> {
    match words {
        [word] => asked_by(word.as_str()),
        [word, path] if word.as_str() == "--check" => Asked::Check(path.as_str()),
        _ => Asked::Usage,
    }
}
