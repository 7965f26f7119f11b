//! What the bytes of an input are, in words of the grammar: messages one after another and what may stand behind them, or
//! where and as what they are rejected; proved of the machine that reads them.
#![tactic(auto)]

pub mod laws;
