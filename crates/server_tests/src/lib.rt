//! The tests of `coord_server`: servers with their clients in one process, over loopback sockets and over lines in memory.
#![tactic(auto)]

#[cfg(test)]
mod faults;
#[cfg(test)]
mod gates;
#[cfg(test)]
mod log;
#[cfg(test)]
mod memory;
#[cfg(test)]
mod server;
