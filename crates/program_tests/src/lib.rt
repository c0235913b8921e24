//! The tests of the program's subcommands over readers and writers in memory. They stand apart from the crate that they test, since
//! a crate with tests is proved twice.
#![tactic(auto)]

#[cfg(test)]
mod tests;
