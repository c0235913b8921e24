//! The states of groups.

use coord_node::Group;

/// No group has the name.
pub(crate) const DEAD: &str = "Dead";

/// Whether a member has what the target wants of it, at the target's epoch.
fn is_settled(group: &Group, rank: usize) -> bool {
    let Some((id, record)) = group.records().member_at(rank) else {
        return true;
    };
    let wanted = group.target().of(id.as_str());
    let has = match group.granted(id.as_str()) {
        Some(set) => set.len(),
        None => 0,
    };
    let wants = match wanted.set() {
        Some(set) => set.len(),
        None => 0,
    };
    record.epoch().is_at(wanted.epoch().as_i32()) && has == wants
}

/// The state of a group (KIP-848, "Consumer Group States"): Empty without members, Assigning if the target is older than the group,
/// Reconciling if a member isn't where the target wants it, else Stable.
pub(crate) fn state_of(group: &Group) -> &'static str {
    if group.members() == 0 {
        return "Empty";
    }
    if group.target().epoch() < group.epoch() {
        return "Assigning";
    }
    for rank in 0..group.members() {
        if !is_settled(group, rank) {
            return "Reconciling";
        }
    }
    "Stable"
}
