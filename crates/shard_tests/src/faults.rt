//! The texts of the faults of shards.

use coord_shards::ShardFault;
use std::alloc::{AllocError, Global};
use std::test::Fail;
use test_support::tables::{Answers, number, wrong_rows};

/// The faults by their numbers.
const TABLE: &str = "
1 = BadNumber: 1 to 64 shards, and a journal of at most 65536 entries
2 = NoSeat: no seat is left, or a seat is missing
3 = NoMemory: out of memory
4 = Unequal: a seat's calls are not its entries
";

#[test]
fn faults_have_texts(rt: HostRuntime) -> Result<(), Fail> {
    let wrong = wrong_rows(rt.alloc(), &Faults, TABLE)?;
    assert_eq!(rt; wrong.as_str(), "");
    Ok(())
}

struct Faults;

impl Answers for Faults {
    fn answer(&self, _alloc: Global, question: &str, out: &mut String) -> Result<(), AllocError> {
        let wanted: u8 = number(question);
        for fault in [
            ShardFault::BadNumber,
            ShardFault::NoSeat,
            ShardFault::NoMemory,
            ShardFault::Unequal,
        ] {
            if fault.number() == wanted {
                return write!(out, "{fault:?}: {fault}");
            }
        }
        Ok(())
    }
}
