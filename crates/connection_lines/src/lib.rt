//! What a program says of its connections, a line each on standard error.
//!
//! ```text
//! connection 3 upper from 127.0.0.1:40122
//! connection 3 upper is dev1
//! connection 3 upper dev1 ended: REFUSED 91 Twice(roID)
//! connection 4 upper dev1 to 127.0.0.1:10541
//! connection 4 upper dev1 ended: Closed
//! connection 5 lower from 127.0.0.1:40124
//! connection 5 lower is dev9, which the settings don't have
//! connection 5 lower sent nothing for 600 s
//! connection 6 editor: the bytes look like UTF-8, ..
//! dial upper dev1 to 127.0.0.1:10541 failed: ConnectionRefused
//! upper dev1 hasn't answered for 30 s
//! port upper can't take connections: Too many open files
//! port upper takes connections again
//! port editor has 4000 connections and takes no more
//! port lower ended, with no memory or thread for a connection; the program ends
//! no thread can be made for a connection; it waits
//! threads can be made again
//! ```
#![tactic(auto)]

mod ends;
mod lines;
mod parts;
mod port_lines;

pub use ends::warns_of;
pub use lines::{
    accepted_line, dialed_line, ended_line, failed_line, hint_line, known_line, quiet_line,
    silent_line, stranger_line,
};
pub use port_lines::{
    full_line, shut_line, stalled_line, threads_again_line, waits_line, works_line,
};
