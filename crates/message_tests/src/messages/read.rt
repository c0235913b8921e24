//! What is read of whole bodies.

/// The message of each body, and how many tagged fields a request has.
pub(super) const READ: [(&str, &str); 12] = [
    (
        "request join",
        r#"
        Heartbeat(RequestHeader { correlation_id: 7, client_id: None, tags: TaggedFields { fields: [] } },
        HeartbeatRequest { group_id: "g", member_id: "", member_epoch: 0, instance_id: None, rack_id: None,
        rebalance_timeout_ms: 60000, subscribed_topic_names: Some(Array { elements: ["t"] }),
        server_assignor: None, topic_partitions: Some(Array { elements: [] }), tags: TaggedFields { fields: [] } })
        tags 0
        "#,
    ),
    (
        "request steady",
        r#"
        Heartbeat(RequestHeader { correlation_id: 9, client_id: None, tags: TaggedFields { fields: [] } },
        HeartbeatRequest { group_id: "g", member_id: "x", member_epoch: 3, instance_id: None, rack_id: None,
        rebalance_timeout_ms: -1, subscribed_topic_names: None, server_assignor: None, topic_partitions: None,
        tags: TaggedFields { fields: [] } })
        tags 0
        "#,
    ),
    // A heartbeat without arrays and tagged fields takes no memory.
    (
        "request_at_once steady",
        r#"
        Heartbeat(RequestHeader { correlation_id: 9, client_id: None, tags: TaggedFields { fields: [] } },
        HeartbeatRequest { group_id: "g", member_id: "x", member_epoch: 3, instance_id: None, rack_id: None,
        rebalance_timeout_ms: -1, subscribed_topic_names: None, server_assignor: None, topic_partitions: None,
        tags: TaggedFields { fields: [] } })
        "#,
    ),
    // one tagged field in the header, one in the topic and two in the message
    (
        "request full_heartbeat",
        r#"
        Heartbeat(RequestHeader { correlation_id: 256, client_id: Some("c"),
        tags: TaggedFields { fields: [TaggedField { tag: 5, value: [170, 187] }] } },
        HeartbeatRequest { group_id: "g", member_id: "m", member_epoch: -2, instance_id: Some("i"), rack_id: Some("r"),
        rebalance_timeout_ms: -1, subscribed_topic_names: None, server_assignor: Some("range"),
        topic_partitions: Some(Array { elements:
        [TopicPartitions { topic_id: 22222222-2222-2222-2222-222222222222, partitions: Array { elements: [3, -1] },
        tags: TaggedFields { fields: [TaggedField { tag: 7, value: [204] }] } }] }),
        tags: TaggedFields { fields: [TaggedField { tag: 0, value: [] }, TaggedField { tag: 128, value: [221] }] } })
        tags 4
        "#,
    ),
    (
        "request commit",
        r#"
        Commit(RequestHeader { correlation_id: 8, client_id: None, tags: TaggedFields { fields: [] } },
        CommitRequest { group_id: "g", generation_id_or_member_epoch: 2,
        member_id: "00000000-0000-0000-0000-000000000001", group_instance_id: None,
        topics: Array { elements: [CommitRequestTopic { name: "t", partitions: Array { elements:
        [CommitRequestPartition { partition_index: 1, committed_offset: 5, committed_leader_epoch: -1,
        committed_metadata: None, tags: TaggedFields { fields: [] } }] },
        tags: TaggedFields { fields: [] } }] },
        tags: TaggedFields { fields: [] } })
        tags 0
        "#,
    ),
    // one tagged field in each of the header, a partition, a topic and the message
    (
        "request full_commit",
        r#"
        Commit(RequestHeader { correlation_id: 257, client_id: Some("c"),
        tags: TaggedFields { fields: [TaggedField { tag: 5, value: [170] }] } },
        CommitRequest { group_id: "g", generation_id_or_member_epoch: -1, member_id: "m", group_instance_id: Some("i"),
        topics: Array { elements: [CommitRequestTopic { name: "t", partitions: Array { elements:
        [CommitRequestPartition { partition_index: 0, committed_offset: 5, committed_leader_epoch: 2,
        committed_metadata: Some("ok"), tags: TaggedFields { fields: [TaggedField { tag: 3, value: [187] }] } },
        CommitRequestPartition { partition_index: 1, committed_offset: -1, committed_leader_epoch: -1,
        committed_metadata: None, tags: TaggedFields { fields: [] } }] },
        tags: TaggedFields { fields: [TaggedField { tag: 4, value: [] }] } },
        CommitRequestTopic { name: "u", partitions: Array { elements: [] }, tags: TaggedFields { fields: [] } }] },
        tags: TaggedFields { fields: [TaggedField { tag: 128, value: [221] }] } })
        tags 4
        "#,
    ),
    (
        "reply_to_heartbeat granted",
        r#"
        Heartbeat(ResponseHeader { correlation_id: 7, tags: TaggedFields { fields: [] } },
        HeartbeatReply { throttle_time_ms: 0, error_code: 0, error_message: None,
        member_id: Some("00000000-0000-0000-0000-000000000001"), member_epoch: 1, heartbeat_interval_ms: 5000,
        assignment: Some(Assignment { topic_partitions: Array { elements:
        [TopicPartitions { topic_id: 11111111-1111-1111-1111-111111111111, partitions: Array { elements: [0, 1] },
        tags: TaggedFields { fields: [] } }] },
        tags: TaggedFields { fields: [] } }), tags: TaggedFields { fields: [] } })
        "#,
    ),
    (
        "reply_to_heartbeat granted_nothing",
        r#"
        Heartbeat(ResponseHeader { correlation_id: 7, tags: TaggedFields { fields: [] } },
        HeartbeatReply { throttle_time_ms: 0, error_code: 0, error_message: None,
        member_id: Some("00000000-0000-0000-0000-000000000002"), member_epoch: 2, heartbeat_interval_ms: 5000,
        assignment: Some(Assignment { topic_partitions: Array { elements: [] },
        tags: TaggedFields { fields: [] } }), tags: TaggedFields { fields: [] } })
        "#,
    ),
    (
        "reply_to_heartbeat unknown_member",
        r#"
        Heartbeat(ResponseHeader { correlation_id: 9, tags: TaggedFields { fields: [] } },
        HeartbeatReply { throttle_time_ms: 0, error_code: 25, error_message: Some("unknown member"),
        member_id: None, member_epoch: 0, heartbeat_interval_ms: 0, assignment: None,
        tags: TaggedFields { fields: [] } })
        "#,
    ),
    (
        "reply_to_heartbeat full_heartbeat_reply",
        r#"
        Heartbeat(ResponseHeader { correlation_id: 10,
        tags: TaggedFields { fields: [TaggedField { tag: 1, value: [238] }] } },
        HeartbeatReply { throttle_time_ms: 100, error_code: -1, error_message: Some("ok"),
        member_id: Some("m"), member_epoch: 5, heartbeat_interval_ms: 5000,
        assignment: Some(Assignment { topic_partitions: Array { elements:
        [TopicPartitions { topic_id: 22222222-2222-2222-2222-222222222222, partitions: Array { elements: [7] },
        tags: TaggedFields { fields: [TaggedField { tag: 7, value: [204] }] } }] },
        tags: TaggedFields { fields: [TaggedField { tag: 2, value: [] }] } }),
        tags: TaggedFields { fields: [TaggedField { tag: 9, value: [1, 2] }] } })
        "#,
    ),
    (
        "reply_to_commit taken",
        r#"
        Commit(ResponseHeader { correlation_id: 8, tags: TaggedFields { fields: [] } },
        CommitReply { throttle_time_ms: 0, topics: Array { elements: [CommitReplyTopic { name: "t",
        partitions: Array { elements: [CommitReplyPartition { partition_index: 1, error_code: 0,
        tags: TaggedFields { fields: [] } }] },
        tags: TaggedFields { fields: [] } }] },
        tags: TaggedFields { fields: [] } })
        "#,
    ),
    (
        "reply_to_commit full_commit_reply",
        r#"
        Commit(ResponseHeader { correlation_id: 11, tags: TaggedFields { fields: [TaggedField { tag: 1, value: [] }] } },
        CommitReply { throttle_time_ms: 0, topics: Array { elements: [CommitReplyTopic { name: "t",
        partitions: Array { elements: [CommitReplyPartition { partition_index: 3, error_code: 113,
        tags: TaggedFields { fields: [TaggedField { tag: 6, value: [255] }] } }] },
        tags: TaggedFields { fields: [TaggedField { tag: 8, value: [] }] } }] },
        tags: TaggedFields { fields: [TaggedField { tag: 10, value: [119] }] } })
        "#,
    ),
];
