//! What `coord reply` and `coord run` say alike of a refusal.

use scenario_text::command_line::escaped;
use std::alloc::{AllocError, Global};

/// That a request came at another epoch than that of its member, which is none where the member is away.
pub fn behind(
    alloc: Global,
    what: &str,
    epoch: i32,
    present: Option<i32>,
) -> Result<String, AllocError> {
    match present {
        Some(present) => format!(in alloc; "{what} at epoch {epoch}, the member is at {present}"),
        None => format!(in alloc; "{what} at epoch {epoch}, the member has left with epoch -2"),
    }
}

/// That a group isn't there.
pub fn no_group(alloc: Global, group: &str) -> Result<String, AllocError> {
    let group = escaped(alloc, group)?;
    format!(in alloc; "there is no group {group}")
}

/// That a group has no such member.
pub fn no_member(alloc: Global, group: &str, member: &str) -> Result<String, AllocError> {
    let (group, member) = (escaped(alloc, group)?, escaped(alloc, member)?);
    format!(in alloc; "group {group} has no member {member}")
}
