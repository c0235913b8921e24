//! What `coord serve` is asked for: the port, the workers, the shards, the connections, the seconds without a byte,
//! whether ends are told, and the partitions of the topic `t`.

use super::wrong_rows;
use std::test::Fail;

#[test]
fn services_have_their_numbers(rt: HostRuntime) -> Result<(), Fail> {
    assert_eq!(rt; wrong_rows(&rt, TABLE)?.as_str(), "");
    Ok(())
}

const TABLE: &str = "\
# a server with no topics
$ serve --port 1 --workers 64 --shards 64 --connections 1000000
=> 1 64 64 1000000 0 0 0

# what isn't said: a worker a processor, and no end
$ serve
=> 9092 3 8 18446744073709551615 0 0 0

# what isn't said, with topics
$ serve --connections 7 t:11111111-1111-1111-1111-111111111111:2 u:22222222-2222-2222-2222-222222222222:1
=> 9092 3 8 7 0 0 2

# a topic is cut at its first colon and its last
$ serve --port 65535 --workers 1 --shards 1 --connections 1 t:urn:uuid:11111111-1111-1111-1111-111111111111:2
=> 65535 1 1 1 0 0 2

# the longest silence, and ends are told
$ serve --idle 86400 --log
=> 9092 3 8 18446744073709551615 86400 1 0";
