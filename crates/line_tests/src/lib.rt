//! The tests of `link_futures`: lines and members' requests over readers and writers in memory.
#![tactic(auto)]

#[cfg(test)]
mod beats;
#[cfg(test)]
mod held;
#[cfg(test)]
mod holding;
#[cfg(test)]
mod lines;
#[cfg(test)]
mod noting;
#[cfg(test)]
mod numbering;
#[cfg(test)]
mod streams;
