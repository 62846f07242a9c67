//! Tests of packets: headers and digests, who is answered, replies, exchanges with a server, and the page that replies are made
//! of. They stand in a crate of their own: a change in them then re-proves none of the crates that they test.
//!
//! `shared` has what the others share; each is named after what it tests.
#![tactic(auto)]

#[cfg(test)]
mod clock_page_tests;
#[cfg(test)]
mod kiss_code_tests;
#[cfg(test)]
mod kiss_gate_tests;
#[cfg(test)]
mod net_tests;
#[cfg(test)]
mod ntp_packet_tests;
#[cfg(test)]
mod packet_auth_tests;
#[cfg(test)]
mod poll_core_tests;
#[cfg(test)]
mod poll_figure_tests;
#[cfg(test)]
mod reply_core_tests;
#[cfg(test)]
mod sealing_tests;
#[cfg(test)]
mod shared;
