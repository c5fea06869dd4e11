//! Tests of the server, over the simulated bus and over a box, its words and its host; of the client, over links and over a gateway in the same
//! thread; and of a bus that another box drives, by replies of a box that are composed by hand, and by a gateway as the box.
#![tactic(auto)]

#[cfg(test)]
mod bench_tools;
#[cfg(test)]
mod box_tests;
#[cfg(test)]
mod box_tools;
#[cfg(test)]
mod chain_tests;
#[cfg(test)]
mod client_run_tests;
#[cfg(test)]
mod client_tests;
#[cfg(test)]
mod client_tools;
#[cfg(test)]
mod host_tests;
#[cfg(test)]
mod log_tests;
#[cfg(test)]
mod loop_tests;
#[cfg(test)]
mod relay_tests;
#[cfg(test)]
mod serve_tests;
#[cfg(test)]
mod served_tests;
#[cfg(test)]
mod word_tools;
#[cfg(test)]
mod words_tests;
