//! The answer to FindCoordinator.

use crate::metadata::NODE_ID;
use crate::request::{TopicsRequest, Unanswered};
use crate::topics::Topics;
use broker_messages::{Coordinator, FindCoordinatorReply, FindCoordinatorRequest};
use std::alloc::Global;

/// The type of a group's key (KIP-699).
const GROUP: i8 = 0;

/// The error code of another type (Kafka protocol guide, "Error Codes").
const INVALID_REQUEST: i16 = 42;

impl Topics {
    /// The coordinator of each group: this broker.
    pub(crate) fn find_coordinator<'a>(
        &'a self,
        alloc: Global,
        request: &TopicsRequest<'a>,
    ) -> Result<FindCoordinatorReply<'a>, Unanswered> {
        let asked = FindCoordinatorRequest::read(alloc, request.head.version, request.rest)?;
        let mut coordinators = Vec::with_capacity(alloc, asked.coordinator_keys.len())?;
        for key in &asked.coordinator_keys {
            coordinators.push(self.coordinator_of(asked.key_type, *key))?;
        }
        Ok(FindCoordinatorReply {
            throttle_time_ms: 0,
            coordinators,
        })
    }

    fn coordinator_of<'a>(&'a self, key_type: i8, key: &'a str) -> Coordinator<'a> {
        if key_type != GROUP {
            let why = Some("there are coordinators of groups alone");
            return Coordinator::none(key, INVALID_REQUEST, why);
        }
        Coordinator {
            key,
            node_id: NODE_ID,
            host: self.plan.host.as_str(),
            port: i32::from(self.plan.port),
            error_code: 0,
            error_message: None,
        }
    }
}
