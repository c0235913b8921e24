//! ListGroups (key 16, versions 0 to 5): the groups of a broker.

use crate::api::BrokerApi;
use crate::fault::MessageFault;
use crate::fields::Fields;
use crate::output::{Output, PutFields};
use std::alloc::Global;

/// A ListGroups request.
#[derive(Debug, Drop)]
pub struct ListGroupsRequest<'a> {
    /// From version 4 on: the states that are asked for; empty for all.
    pub states_filter: Vec<&'a str>,
    /// From version 5 on: the types that are asked for; empty for all.
    pub types_filter: Vec<&'a str>,
}

/// The answer to it.
#[derive(Drop)]
pub struct ListGroupsReply<'a> {
    /// From version 1 on.
    pub throttle_time_ms: i32,
    pub error_code: i16,
    pub groups: Vec<ListedGroup<'a>>,
}

/// A group.
#[derive(Clone, Copy)]
pub struct ListedGroup<'a> {
    pub group_id: &'a str,
    /// `consumer`.
    pub protocol_type: &'a str,
    /// From version 4 on: Empty, Assigning, Reconciling, Stable or Dead.
    pub group_state: &'a str,
    /// From version 5 on: `consumer` or `classic`.
    pub group_type: &'a str,
}

impl<'a> ListGroupsRequest<'a> {
    /// Reads what comes after the head. Faults: a field's; memory.
    pub fn read(
        alloc: Global,
        version: i16,
        bytes: &'a [u8],
    ) -> Result<ListGroupsRequest<'a>, MessageFault> {
        let mut fields = Fields::of(BrokerApi::ListGroups, version, bytes);
        let states_filter = take_filter(alloc, &mut fields, 4)?;
        let types_filter = take_filter(alloc, &mut fields, 5)?;
        fields.tags()?;
        Ok(ListGroupsRequest {
            states_filter,
            types_filter,
        })
    }
}

/// The words of a filter, which is there from a version on.
fn take_filter<'a>(
    alloc: Global,
    fields: &mut Fields<'a>,
    version: i16,
) -> Result<Vec<&'a str>, MessageFault> {
    if fields.since(version) {
        return fields.array(alloc);
    }
    Ok(Vec::new(alloc))
}

impl PutFields for ListGroupsReply<'_> {
    fn put_fields(&self, output: &mut Output) -> Result<(), MessageFault> {
        output.int32_since(1, self.throttle_time_ms)?;
        output.int16(self.error_code)?;
        output.array(&self.groups)?;
        output.tags()
    }
}

impl PutFields for ListedGroup<'_> {
    fn put_fields(&self, output: &mut Output) -> Result<(), MessageFault> {
        output.string(self.group_id)?;
        output.string(self.protocol_type)?;
        output.string_since(4, self.group_state)?;
        output.string_since(5, self.group_type)?;
        output.tags()
    }
}
