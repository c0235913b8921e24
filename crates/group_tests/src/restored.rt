//! A node that is built anew of all that is read of another one.

use coord_node::{Group, NamedGroup, Node};
use group_core::{
    Committed, GroupNumbers, MemberId, Record, RecordFields, Records, Restoring, Share,
};
use std::alloc::{AllocError, Global};
use std::collections::hash_map::RandomState;

/// The node, built anew; none where a part of it is refused.
pub fn rebuilt(
    alloc: Global,
    hasher: RandomState,
    node: &Node,
) -> Result<Option<Node>, AllocError> {
    let mut new = Node::new(alloc, node.salt(), hasher);
    new.set_image(node.image().copy()?);
    for named in node.groups()? {
        if !is_rebuilt(alloc, hasher, &mut new, &named)? {
            return Ok(None);
        }
    }
    Ok(Some(new).filter(|new| new.group_count() == node.group_count()))
}

fn is_rebuilt(
    alloc: Global,
    hasher: RandomState,
    node: &mut Node,
    named: &NamedGroup<'_>,
) -> Result<bool, AllocError> {
    match rebuilt_group(alloc, hasher, named.group)? {
        Some(group) => node.restore_group(named.name, group),
        None => Ok(false),
    }
}

/// The group, built anew; none where a part of it is refused.
fn rebuilt_group(
    alloc: Global,
    hasher: RandomState,
    group: &Group,
) -> Result<Option<Group>, AllocError> {
    let mut new = Restoring::new(alloc, group.salt(), hasher);
    let mut shares = Vec::new(alloc);
    if !has_past(alloc, &mut new, group.records())?
        || !has_members(alloc, &mut new, &mut shares, group)?
        || !has_offsets(alloc, &mut new, group)?
    {
        return Ok(None);
    }
    let numbers = GroupNumbers {
        epoch: group.epoch(),
        target_epoch: group.target().epoch(),
        clock: group.clock(),
        ids_made: group.ids_made(),
    };
    new.finish(numbers, shares, group.view().copy(alloc)?)
}

/// Whether the former members were added.
fn has_past(alloc: Global, new: &mut Restoring, records: &Records) -> Result<bool, AllocError> {
    for place in 0..records.past_len() {
        if let Some((id, stamp)) = records.past_at(place) {
            if !new.restore_past(id.copy(alloc)?, stamp)? {
                return Ok(false);
            }
        }
    }
    Ok(true)
}

/// Whether the members were added, each with what it may read. Their shares are gathered.
fn has_members(
    alloc: Global,
    new: &mut Restoring,
    shares: &mut Vec<Share>,
    group: &Group,
) -> Result<bool, AllocError> {
    let records = group.records();
    for rank in 0..records.len() {
        if let Some((id, record)) = records.member_at(rank) {
            shares.push(share_of(alloc, group, id)?)?;
            if !new.restore_member(id, record_of(alloc, record)?)? || !has_grants(new, group, id)? {
                return Ok(false);
            }
        }
    }
    Ok(true)
}

fn share_of(alloc: Global, group: &Group, id: &MemberId) -> Result<Share, AllocError> {
    Ok(Share {
        id: id.copy(alloc)?,
        set: group.target().of(id.as_str()).copy_set(alloc)?,
    })
}

/// Whether what the member may read was granted.
fn has_grants(new: &mut Restoring, group: &Group, id: &MemberId) -> Result<bool, AllocError> {
    let Some(held) = group.granted(id.as_str()) else {
        return Ok(true);
    };
    for p in held.iter() {
        let Some(since) = group.grants().granted_at(p) else {
            return Ok(false);
        };
        if !new.restore_grant(id, p, since)? {
            return Ok(false);
        }
    }
    Ok(true)
}

fn record_of(alloc: Global, record: &Record) -> Result<Record, AllocError> {
    let sent = match record.sent() {
        Some(sent) => Some(sent.copy(alloc)?),
        None => None,
    };
    Ok(Record::of(RecordFields {
        instance: text_of(alloc, record.instance())?,
        rack: text_of(alloc, record.rack())?,
        names: record.names().copy(alloc)?,
        assignor: record.assignor(),
        rebalance_timeout: record.rebalance_timeout(),
        epoch: record.epoch(),
        previous_epoch: record.previous_epoch(),
        stamp: record.stamp(),
        sent,
        session_deadline: record.session_deadline(),
        release_deadline: record.release_deadline(),
    }))
}

fn text_of(alloc: Global, text: Option<&str>) -> Result<Option<String>, AllocError> {
    match text {
        Some(text) => Ok(Some(String::from_str(alloc, text)?)),
        None => Ok(None),
    }
}

/// Whether the offsets were stored.
fn has_offsets(alloc: Global, new: &mut Restoring, group: &Group) -> Result<bool, AllocError> {
    for at in group.offsets().in_order()? {
        let metadata = text_of(alloc, at.committed.metadata())?;
        let committed = Committed::new(
            at.committed.offset(),
            at.committed.leader_epoch(),
            metadata,
        );
        if !new.restore_offset(at.name, at.index, committed)? {
            return Ok(false);
        }
    }
    Ok(true)
}
