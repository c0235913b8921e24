//! How many tagged fields a request has.

ghost use Rattle.std.specs.Prelude.{◌≡◌, min};
ghost use Rattle.std.specs.Prelude.{option_map, map};
ghost use Rattle.std.specs.List.{sum_by};
ghost use Rattle.kip_msgs.specs.TagCount.{tags_in, tags_in_topics, tags_in_commit_topic};
ghost use Rattle.kip_msgs.specs.Topics.{topic_partitions_values};
ghost use Rattle.kip_msgs.specs.Views.{request_value, commit_request_topic_value};

use crate::array::Array;
use crate::commit::CommitRequestTopic;
use crate::heartbeat::TopicPartitions;
use crate::message::Request;

fn in_topics(topics: &Option<Array<TopicPartitions<'_>>>) -> usize
    ensures { result ≡ min (tags_in_topics (option_map topic_partitions_values topics.now)) 18446744073709551615 }
{
    let mut count = 0usize;
    if let Some(topics) = topics {
        for topic in topics.as_slice() {
            count = count.saturating_add(topic.tags.len());
        }
    }
    count
}

fn in_commit_topic(topic: &CommitRequestTopic<'_>) -> usize
    ensures { result ≡ min (tags_in_commit_topic (commit_request_topic_value topic.now)) 18446744073709551615 }
{
    let mut count = topic.tags.len();
    for partition in topic.partitions.as_slice() {
        count = count.saturating_add(partition.tags.len());
    }
    count
}

fn in_commit_topics(topics: &[CommitRequestTopic<'_>]) -> usize
    ensures { result ≡ min (sum_by tags_in_commit_topic (map commit_request_topic_value topics.now)) 18446744073709551615 }
{
    let mut count = 0usize;
    for topic in topics {
        count = count.saturating_add(in_commit_topic(topic));
    }
    count
}

impl Request<'_> {
    /// The number of tagged fields in all of the body (KIP-482): the header's, the message's, and
    /// those of the structures in its arrays; `usize::MAX` where there are more.
    pub fn tag_count(&self) -> usize
        ensures { result ≡ min (tags_in (request_value self.now)) 18446744073709551615 }
    {
        match self {
            Request::Heartbeat(header, message) => {
                let nested = in_topics(&message.topic_partitions);
                let own = message.tags.len().saturating_add(nested);
                header.tags.len().saturating_add(own)
            }
            Request::Commit(header, message) => {
                let nested = in_commit_topics(message.topics.as_slice());
                let own = message.tags.len().saturating_add(nested);
                header.tags.len().saturating_add(own)
            }
        }
    }
}
