//! The texts of the faults of members and of worlds.

use member_core::BeatFault;
use std::alloc::{AllocError, Global};
use std::test::Fail;
use test_support::tables::{Answers, cut, number, wrong_rows};
use world_sim::WorldFault;

/// The faults by their numbers.
const TABLE: &str = "
member 1 = NoInstance: no instance id
member 2 = TooLarge: request too large
member 3 = Spent: no request number left
member 4 = NoMemory: out of memory
world 1 = NoSuchClient: no such client
world 2 = NoSuchMessage: no such message
world 3 = WrongState: not in this state
world 4 = NoMemory: out of memory
world 5 = TooLarge: request too large
world 6 = Forgotten: member id forgotten
";

#[test]
fn faults_have_texts(rt: HostRuntime) -> Result<(), Fail> {
    let wrong = wrong_rows(rt.alloc(), &Faults, TABLE)?;
    assert_eq!(rt; wrong.as_str(), "");
    Ok(())
}

struct Faults;

impl Answers for Faults {
    fn answer(&self, _alloc: Global, question: &str, out: &mut String) -> Result<(), AllocError> {
        match cut(question) {
            ("member", words) => tell_member_fault(number(words), out),
            (_, words) => tell_world_fault(number(words), out),
        }
    }
}

fn tell_member_fault(number: u8, out: &mut String) -> Result<(), AllocError> {
    for fault in [
        BeatFault::NoInstance,
        BeatFault::TooLarge,
        BeatFault::Spent,
        BeatFault::NoMemory,
    ] {
        if fault.number() == number {
            return write!(out, "{fault:?}: {fault}");
        }
    }
    Ok(())
}

fn tell_world_fault(number: u8, out: &mut String) -> Result<(), AllocError> {
    for fault in [
        WorldFault::NoSuchClient,
        WorldFault::NoSuchMessage,
        WorldFault::WrongState,
        WorldFault::NoMemory,
        WorldFault::TooLarge,
        WorldFault::Forgotten,
    ] {
        if fault.number() == number {
            return write!(out, "{fault:?}: {fault}");
        }
    }
    Ok(())
}
