//! For tests: that there are systems of servers that run. One is told, step by step: two servers, a dial, a late accept, a copy, a promotion and
//! a kill.
#![tactic(auto)]

pub mod laws;
