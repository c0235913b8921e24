//! FindCoordinator (key 10, versions 0 to 4): which broker coordinates a group.

ghost use Rattle.std.specs.Prelude.{◌≡◌};

use crate::api::BrokerApi;
use crate::fault::MessageFault;
use crate::fields::Fields;
use crate::output::{Output, PutFields};
use std::alloc::Global;

/// A FindCoordinator request.
#[derive(Debug, Drop)]
pub struct FindCoordinatorRequest<'a> {
    /// 0 for groups, 1 for transactions. Groups alone before version 1.
    pub key_type: i8,
    /// The groups' ids: one before version 4.
    pub coordinator_keys: Vec<&'a str>,
}

/// The answer, key by key. Before version 4 the first one alone is written, without its key; the error COORDINATOR_NOT_AVAILABLE (15)
/// if there is none.
#[derive(Drop)]
pub struct FindCoordinatorReply<'a> {
    /// From version 1 on.
    pub throttle_time_ms: i32,
    pub coordinators: Vec<Coordinator<'a>>,
}

/// A key's coordinator, or why there is none: an error, and the node -1 with an empty host and the port -1.
#[derive(Clone, Copy)]
pub struct Coordinator<'a> {
    pub key: &'a str,
    pub node_id: i32,
    pub host: &'a str,
    pub port: i32,
    pub error_code: i16,
    /// From version 1 on.
    pub error_message: Option<&'a str>,
}

impl<'a> Coordinator<'a> {
    /// No coordinator of the key, for this reason.
    pub fn none(key: &'a str, error_code: i16, error_message: Option<&'a str>) -> Coordinator<'a> {
        Coordinator {
            key,
            node_id: -1,
            host: "",
            port: -1,
            error_code,
            error_message,
        }
    }
}

/// The first version that asks for several keys.
const SEVERAL: i16 = 4;

/// The error of a reply with no coordinator.
const COORDINATOR_NOT_AVAILABLE: i16 = 15;

impl<'a> FindCoordinatorRequest<'a> {
    /// Reads what comes after the head. Faults: a field's; memory.
    pub fn read(
        alloc: Global,
        version: i16,
        bytes: &'a [u8],
    ) -> Result<FindCoordinatorRequest<'a>, MessageFault> {
        let mut fields = Fields::of(BrokerApi::FindCoordinator, version, bytes);
        let mut coordinator_keys = Vec::new(alloc);
        if !fields.since(SEVERAL) {
            let key = fields.string()?;
            coordinator_keys.push(key)?;
        }
        let key_type = if fields.since(1) { fields.int8()? } else { 0 };
        if fields.since(SEVERAL) {
            coordinator_keys = fields.array(alloc)?;
        }
        fields.tags()?;
        Ok(FindCoordinatorRequest {
            key_type,
            coordinator_keys,
        })
    }
}

impl PutFields for FindCoordinatorReply<'_> {
    fn put_fields(&self, output: &mut Output) -> Result<(), MessageFault> {
        output.int32_since(1, self.throttle_time_ms)?;
        if output.since(SEVERAL) {
            output.array(&self.coordinators)?;
            return output.tags();
        }
        match self.coordinators.first() {
            Some(coordinator) => put_one(output, coordinator),
            None => put_one(
                output,
                &Coordinator::none("", COORDINATOR_NOT_AVAILABLE, None),
            ),
        }
    }
}

/// The coordinator of the one key of a version before 4.
fn put_one(output: &mut Output, coordinator: &Coordinator<'_>) -> Result<(), MessageFault>
    ensures { output.new ≡ output.old }
{
    output.int16(coordinator.error_code)?;
    output.nullable_string_since(1, coordinator.error_message)?;
    output.int32(coordinator.node_id)?;
    output.string(coordinator.host)?;
    output.int32(coordinator.port)?;
    output.tags()
}

impl PutFields for Coordinator<'_> {
    fn put_fields(&self, output: &mut Output) -> Result<(), MessageFault> {
        output.string(self.key)?;
        output.int32(self.node_id)?;
        output.string(self.host)?;
        output.int32(self.port)?;
        output.int16(self.error_code)?;
        output.nullable_string(self.error_message)?;
        output.tags()
    }
}
