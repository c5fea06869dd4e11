//! Tests of the player, its script, its lines and its lift, and of the checker of traces.
#![tactic(auto)]

#[cfg(test)]
mod check_tests;
#[cfg(test)]
mod lift_tests;
#[cfg(test)]
mod play_tests;
#[cfg(test)]
mod script_tests;
#[cfg(test)]
mod text_tools;
#[cfg(test)]
mod trace_tests;
