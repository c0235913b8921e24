//! What a member of a group is made with.

/// What a member says of itself when it joins, and keeps (KIP-848, "ConsumerGroupHeartbeatRequest").
#[derive(Debug, Drop)]
pub struct Settings {
    pub group: String,
    /// Of a static member (KIP-345).
    pub instance: Option<String>,
    pub rack: Option<String>,
    /// How long the member may take to release partitions, in milliseconds.
    pub rebalance_timeout: u32,
    /// The topics that it subscribes.
    pub names: Vec<String>,
    /// The assignor that it asks for; without one the coordinator picks.
    pub assignor: Option<String>,
}
