//! Several servers, whose turns, kills, starts and connections happen in any order: their nodes never differ silently. Definitions and laws.
#![tactic(auto)]

pub mod laws;
