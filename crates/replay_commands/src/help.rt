//! What the program says of itself.

/// What is printed for wrong words.
pub const USAGE: &str = "usage: mos_replay take | show | check | replay | make N";

const HELP: &str = "Shows, checks and replays the traffic of MOS messages.

usage: mos_replay take | show | check | replay | make N

  take      answers the messages on standard input as a device does
  show      lists the messages on standard input
  check     counts the messages on standard input
  replay    plays the script on standard input on a server and its gateways
  make N    makes a script of N events, at most 200000, and plays it

Messages are UCS-2, high byte first: those of Profiles 0, 1, 2 and 4, in any
encoding, and others as they are written.

`take` keeps the running orders that it is sent, and answers each message as
soon as it is whole, in UCS-2. `show` writes one line for each message: where
it begins in 16-bit code units (the byte is twice that), its name, mosID,
ncsID, and its roID or objID.

A script is lines of ASCII: `devices D`, then an event a line, as `cmd create
r A B`, `open 1` or `read 1`. `replay` writes a line for each event, and what
both ends hold at the end. `make` writes counts, and what both ends hold.

The program ends with
  0  all was read and written
  1  the input is rejected; the last line says REFUSED, the place in code
     units and the kind, or for a script the number of the line
  2  the words aren't a command
  3  standard input failed, or has a gibibyte or more
  4  standard output failed
  5  there was no memory
";

const VERSION: &str = "mos_replay 0.1.0, MOS Protocol 2.8.5
";

/// What is printed for a word that asks about the program, if it is one.
pub fn about(words: &[String]) -> Option<&'static str> {
    match words {
        [word] => match word.as_str() {
            "--help" => Some(HELP),
            "--version" => Some(VERSION),
            _ => None,
        },
        _ => None,
    }
}
