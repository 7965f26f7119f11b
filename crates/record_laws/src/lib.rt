//! What a record accepts and what each kind of rejection means, said by its table alone; proved of the machine that reads
//! records token by token.
#![tactic(auto)]

pub mod laws;
