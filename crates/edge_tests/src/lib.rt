//! Tests of the edges to the system (`real_edges`), by their public calls alone: on real folders and
//! sockets, and with printers and clocks that fail. Tests of the hosts and the peer in memory
//! (`edge_io`).
#![tactic(auto)]

#[cfg(test)]
mod folder_tests;
#[cfg(test)]
mod host_tests;
#[cfg(test)]
mod peer_tests;
#[cfg(test)]
mod socket_tests;
#[cfg(test)]
mod stream_tests;
