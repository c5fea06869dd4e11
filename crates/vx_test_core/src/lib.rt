//! Tests of the shared gateway, its turns and its sessions, of those at a desk with names, of sessions over four buses, of those that written
//! rules guard, and of links of a lab that has both names and rules.
#![tactic(auto)]

#[cfg(test)]
mod buses_crossed_tests;
#[cfg(test)]
mod buses_number_tests;
#[cfg(test)]
mod buses_run_tests;
#[cfg(test)]
mod buses_session_tests;
#[cfg(test)]
mod buses_tools;
#[cfg(test)]
mod core_tests;
#[cfg(test)]
mod crossed_session_tests;
#[cfg(test)]
mod crossing_tools;
#[cfg(test)]
mod desk_tools;
#[cfg(test)]
mod gateway_tools;
#[cfg(test)]
mod guard_run_tests;
#[cfg(test)]
mod guard_session_tests;
#[cfg(test)]
mod guard_tools;
#[cfg(test)]
mod lab_tests;
#[cfg(test)]
mod names_tests;
#[cfg(test)]
mod policy_tests;
#[cfg(test)]
mod pump_tests;
#[cfg(test)]
mod pump_tools;
#[cfg(test)]
mod record_tools;
#[cfg(test)]
mod ruled_buses_tests;
#[cfg(test)]
mod run_tools;
#[cfg(test)]
mod session_tests;
