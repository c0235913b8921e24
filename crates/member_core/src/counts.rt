//! Whether the arrays of a request have few enough elements for a body.
ghost use Rattle.std.specs.Prelude.{◌≡◌, map, length};
ghost use Rattle.kip_msgs.specs.Topics.{topic_partitions_values};
ghost use Rattle.kip_msgs.specs.Views.{request_value, commit_request_topic_value};
ghost use Rattle.std.specs.Option.{option_map};
ghost use Rattle.member_core.specs.Writing.{are_few as few, are_few_names, are_few_owned, are_few_offsets};

use group_types::limits::LARGEST_BODY;
use kip_msgs::{Array, CommitRequestTopic, Request, TopicPartitions};

/// Whether no array of the request has more elements than a body may have bytes.
pub(crate) fn are_few(request: &Request<'_>) -> bool
    ensures { result ≡ few (request_value request.now) }
{
    match request {
        Request::Heartbeat(_, message) => {
            few_names(&message.subscribed_topic_names) && few_owned(&message.topic_partitions)
        }
        Request::Commit(_, message) => few_offsets(message.topics.as_slice()),
    }
}

fn few_names(names: &Option<Array<&str>>) -> bool
    ensures { result ≡ are_few_names (option_map (map (λ name. name.now)) names.now) }
{
    match names {
        Some(names) => names.len() <= LARGEST_BODY,
        None => true,
    }
}

fn few_owned(topics: &Option<Array<TopicPartitions<'_>>>) -> bool
    ensures { result ≡ are_few_owned (option_map topic_partitions_values topics.now) }
{
    match topics {
        Some(topics) => {
            let topics = topics.as_slice();
            topics.len() <= LARGEST_BODY
                && topics.iter().all(|t| t.partitions.len() <= LARGEST_BODY)
        }
        None => true,
    }
}

fn few_offsets(topics: &[CommitRequestTopic<'_>]) -> bool
    ensures { result ≡ are_few_offsets (map commit_request_topic_value topics.now) }
{
    topics.len() <= LARGEST_BODY && topics.iter().all(|t| t.partitions.len() <= LARGEST_BODY)
}
