//! Records that come to partitions by themselves.

ghost use Rattle.std.specs.Prelude.{◌≤◌, length};

use crate::partition::Partition;
use crate::topics::{Topics, number_of};
use std::alloc::{AllocError, Global};
use std::sync::Wait;
use topic_logs::{generated_batch, producible};

/// The most records of a batch that no producer sent.
const MOST_RECORDS: usize = 200;

impl Topics {
    /// Appends records of this moment, in milliseconds since 1970, to each partition. The value of each is `topic/partition/offset`.
    pub fn generate<R: Wait>(
        &self,
        rt: &R,
        alloc: Global,
        count: usize,
        moment: u64,
    ) -> Result<(), AllocError> {
        let moment = i64::try_from(moment).unwrap_or(i64::MAX);
        let timestamps = vec![in alloc; moment; MOST_RECORDS]?;
        for _batch in 0..count / MOST_RECORDS {
            self.generate_batches(rt, alloc, &timestamps)?;
        }
        let rest = count % MOST_RECORDS;
        if rest > 0 {
            self.generate_batches(rt, alloc, &timestamps[..rest])?;
        }
        Ok(())
    }

    /// Appends a batch of records with these timestamps to each partition.
    fn generate_batches<R: Wait>(
        &self,
        rt: &R,
        alloc: Global,
        timestamps: &[i64],
    ) -> Result<(), AllocError>
        requires some { 1 ≤ length timestamps.now }
        requires most { length timestamps.now ≤ 200 }
    {
        for topic in self.topics() {
            for (number, partition) in topic.partitions.iter().enumerate() {
                let name = topic.name.as_str();
                let waiting = partition.lock(rt).generate(
                    alloc,
                    name,
                    number_of(number),
                    timestamps,
                    self.plan.retain,
                )?;
                self.bells.ring(rt, waiting);
            }
        }
        Ok(())
    }
}

impl Partition {
    /// Appends a batch of records with these timestamps. Gives the workers that wait for it.
    fn generate(
        &mut self,
        alloc: Global,
        topic: &str,
        number: i32,
        timestamps: &[i64],
        retain: usize,
    ) -> Result<u64, AllocError>
        requires some { 1 ≤ length timestamps.now }
        requires most { length timestamps.now ≤ 200 }
    {
        let records = generated_batch(alloc, topic, number, self.log.end_offset(), timestamps)?;
        if let Ok(batch) = producible(records.as_slice()) {
            let _ = self.produce(alloc, number, &batch, retain);
        }
        Ok(self.take_waiting())
    }
}
