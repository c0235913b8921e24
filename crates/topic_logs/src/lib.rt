//! The log of a topic's partition, in memory.
#![tactic(auto)]

mod batch;
mod checksum;
mod fault;
mod field;
mod generated;
mod kept;
mod log;
mod produce;
mod sequence;

pub use batch::RecordBatch;
pub use checksum::crc32c;
pub use fault::{AppendFault, BatchFault, ReadFault};
pub use generated::generated_batch;
pub use log::{Appended, PartitionLog};
pub use produce::producible;
