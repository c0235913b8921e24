//! The answer to Fetch.

use crate::bells::bit_of;
use crate::fetched::{Room, UNKNOWN_LEADER_EPOCH, UNKNOWN_TOPIC_OR_PARTITION, fetched, no_records};
use crate::held::{Held, HeldPart};
use crate::limits::{LONGEST_HOLD, MOST_FETCHED};
use crate::request::{TopicsRequest, Unanswered};
use crate::topics::Topics;
use broker_messages::{
    FetchReply, FetchReplyPartition, FetchReplyTopic, FetchRequest, FetchRequestPartition,
    FetchRequestTopic,
};
use std::alloc::{AllocError, Global};
use std::sync::Wait;

/// The error code of a fetch session that isn't there: there are none (Kafka protocol guide, "Error Codes").
const FETCH_SESSION_ID_NOT_FOUND: i16 = 70;

/// A reply to a Fetch, and what it waits for.
#[derive(Drop)]
pub(crate) struct Fetched<'a> {
    pub(crate) reply: FetchReply<'a>,
    pub(crate) held: Option<Held>,
}

/// How far a reply is.
#[derive(Drop)]
struct Progress {
    room: Room,
    /// How many bytes of records it has.
    found: usize,
    has_error: bool,
    /// The partitions that are there.
    parts: Vec<HeldPart>,
}

impl Topics {
    /// The records that a Fetch asks for (Kafka protocol guide, "Fetch API"), as many as the client and [`MOST_FETCHED`] allow, and the
    /// first batch in any case. There are no sessions: each request says all that it wants.
    pub(crate) fn fetch<'a, R: Wait>(
        &self,
        rt: &R,
        alloc: Global,
        request: &TopicsRequest<'a>,
    ) -> Result<Fetched<'a>, Unanswered> {
        let asked = FetchRequest::read(alloc, request.head.version, request.rest)?;
        let mut reply = FetchReply {
            throttle_time_ms: 0,
            error_code: 0,
            session_id: 0,
            topics: Vec::new(alloc),
        };
        if asked.session.epoch > 0 {
            reply.error_code = FETCH_SESSION_ID_NOT_FOUND;
            return Ok(Fetched { reply, held: None });
        }
        let room = Room {
            left: MOST_FETCHED,
            is_first: true,
        };
        let mut progress = Progress {
            room: room.at_most(asked.max_bytes),
            found: 0,
            has_error: false,
            parts: Vec::new(alloc),
        };
        for topic in &asked.topics {
            let topic = self.fetch_topic(rt, alloc, topic, &mut progress)?;
            reply.topics.push(topic)?;
        }
        let held = held_by(&asked, progress);
        Ok(Fetched { reply, held })
    }

    /// The answer for a topic.
    fn fetch_topic<'a, R: Wait>(
        &self,
        rt: &R,
        alloc: Global,
        topic: &FetchRequestTopic<'a>,
        progress: &mut Progress,
    ) -> Result<FetchReplyTopic<'a>, Unanswered> {
        let place = self.place_of(topic.topic);
        let mut partitions = Vec::with_capacity(alloc, topic.partitions.len())?;
        for asked in &topic.partitions {
            let reply = match place {
                Some(place) => self.fetch_partition(rt, alloc, place, asked, progress)?,
                None => no_records(alloc, asked.partition, UNKNOWN_TOPIC_OR_PARTITION),
            };
            progress.note(&reply);
            partitions.push(reply)?;
        }
        Ok(FetchReplyTopic {
            topic: topic.topic,
            partitions,
        })
    }

    /// The answer for a partition of the topic at this place.
    fn fetch_partition<R: Wait>(
        &self,
        rt: &R,
        alloc: Global,
        place: usize,
        asked: &FetchRequestPartition,
        progress: &mut Progress,
    ) -> Result<FetchReplyPartition, AllocError> {
        let Some(partition) = self.partition(place, asked.partition) else {
            return Ok(no_records(alloc, asked.partition, UNKNOWN_TOPIC_OR_PARTITION));
        };
        if asked.current_leader_epoch > 0 {
            return Ok(no_records(alloc, asked.partition, UNKNOWN_LEADER_EPOCH));
        }
        let room = progress.room.at_most(asked.partition_max_bytes);
        let locked = partition.lock(rt);
        let appended = locked.appended;
        let reply = fetched(alloc, &locked.log, asked, room)?;
        drop(locked);
        progress.parts.push(HeldPart {
            topic: place,
            partition: asked.partition,
            appended,
        })?;
        Ok(reply)
    }

    /// Whether enough was appended for a held reply. The worker is noted at each of the partitions.
    pub(crate) fn has_grown<R: Wait>(&self, rt: &R, worker: usize, held: &Held) -> bool {
        let mut grown: u64 = 0;
        for part in &held.parts {
            grown = grown.saturating_add(self.growth(rt, worker, part));
        }
        grown >= held.missing
    }

    /// How many bytes were appended to a partition since. The worker is noted there.
    fn growth<R: Wait>(&self, rt: &R, worker: usize, part: &HeldPart) -> u64 {
        match self.partition(part.topic, part.partition) {
            Some(partition) => {
                let mut locked = partition.lock(rt);
                locked.waiting |= bit_of(worker);
                locked.appended.saturating_sub(part.appended)
            }
            None => 0,
        }
    }
}

impl Progress {
    /// Notes the answer for a partition.
    fn note(&mut self, reply: &FetchReplyPartition) {
        let bytes = reply.records.len();
        self.room = self.room.after(bytes);
        self.found = self.found.saturating_add(bytes);
        if reply.error_code != 0 {
            self.has_error = true;
        }
    }
}

/// What a reply waits for, if it may be held: it has fewer bytes than the client wants, and no error.
fn held_by(asked: &FetchRequest<'_>, progress: Progress) -> Option<Held> {
    if asked.max_wait_ms <= 0 || asked.min_bytes <= 0 {
        return None;
    }
    let missing = (asked.min_bytes as usize).saturating_sub(progress.found);
    if missing == 0 || progress.has_error || progress.parts.is_empty() {
        return None;
    }
    Some(Held {
        max_wait_ms: LONGEST_HOLD.min(asked.max_wait_ms as u32),
        missing: missing as u64,
        parts: progress.parts,
    })
}
