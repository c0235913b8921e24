//! The limits and times, by the numbers of another hand: a definition and a constant that were turned together would meet every contract.

use group_types::limits::{
    GREATEST_EPOCH, HEARTBEAT_INTERVAL, LARGEST_BODY, LONGEST_METADATA, LONGEST_STRING,
    MOST_GROUPS, MOST_MEMBERS, MOST_PARTITIONS, MOST_PAST_MEMBERS, MOST_TOPIC_PARTITIONS,
    MOST_TOPICS, SESSION_TIMEOUT, SMALLEST_BODY,
};
use std::alloc::{AllocError, Global};
use std::test::Fail;
use test_support::tables::{Answers, wrong_rows};

/// Times are in milliseconds (Kafka's defaults).
const TABLE: &str = "
smallest-body = 1
largest-body = 8388608
string = 32767
metadata = 4096
topics = 10000
partitions-of-a-topic = 100000
partitions = 1000000
members = 10000
groups = 100000
former-members = 4096
epoch = 2147483647
session = 45000
heartbeat = 5000
";

#[test]
fn limits_have_their_numbers(rt: HostRuntime) -> Result<(), Fail> {
    let wrong = wrong_rows(rt.alloc(), &Limits, TABLE)?;
    assert_eq!(rt; wrong.as_str(), "");
    Ok(())
}

struct Limits;

impl Answers for Limits {
    fn answer(&self, _alloc: Global, question: &str, out: &mut String) -> Result<(), AllocError> {
        write!(out, "{}", limit(question))
    }
}

fn limit(name: &str) -> u64 {
    match name {
        "smallest-body" => SMALLEST_BODY as u64,
        "largest-body" => LARGEST_BODY as u64,
        "string" => LONGEST_STRING as u64,
        "metadata" => LONGEST_METADATA as u64,
        "topics" => MOST_TOPICS as u64,
        "partitions-of-a-topic" => u64::from(MOST_TOPIC_PARTITIONS),
        "partitions" => MOST_PARTITIONS,
        "members" => MOST_MEMBERS as u64,
        "groups" => MOST_GROUPS as u64,
        "former-members" => MOST_PAST_MEMBERS as u64,
        "epoch" => u64::from(GREATEST_EPOCH),
        "session" => SESSION_TIMEOUT,
        "heartbeat" => u64::from(HEARTBEAT_INTERVAL.unsigned_abs()),
        _ => 0,
    }
}
