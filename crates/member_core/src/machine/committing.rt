//! What a member commits.
ghost use Rattle.std.specs.Prelude.{◌≡◌, false, map, All, IfOk, IfErr};
ghost use Rattle.kip_msgs.specs.Views.{commit_request_topic_value};
ghost use Rattle.member_core.specs.Commits.{commit_under};
ghost use Rattle.member_core.specs.Framing.{IsRequestFrame};
ghost use Rattle.member_core.specs.Refusing.{size_refusal, IsFault};
ghost use Rattle.member_core.specs.Writing.{HasShortTopic, are_few};

use super::Machine;
use crate::fault::BeatFault;
use crate::frame::frame_of;
use flex_wire::TaggedFields;
use kip_msgs::{Array, CommitRequest, CommitRequestTopic, Request, RequestHeader};

impl Machine {
    /// The frame of a commit at the member epoch that the member knows.
    pub(crate) fn commit<'a>(
        &'a self,
        correlation: i32,
        topics: Array<CommitRequestTopic<'a>>,
    ) -> Result<Vec<u8>, BeatFault>
        requires { All HasShortTopic (map commit_request_topic_value topics) }
        ensures frame { IfOk result (λ frame.
            IsRequestFrame (commit_under self.now correlation (map commit_request_topic_value topics.entry)) frame.items) }
        ensures fault { IfErr result (λ fault.
            IsFault (size_refusal (commit_under self.now correlation (map commit_request_topic_value topics.entry))) fault) }
        ensures many { are_few (commit_under self.now correlation (map commit_request_topic_value topics.entry)) ≡ false
            → result ≡ Err BeatFault.TooLarge }
    {
        let header = RequestHeader {
            correlation_id: correlation,
            client_id: None,
            tags: TaggedFields::new(self.alloc),
        };
        let message = CommitRequest {
            group_id: self.settings.group.as_str(),
            generation_id_or_member_epoch: self.epoch.as_i32(),
            member_id: self.id_text(),
            group_instance_id: None,
            topics,
            tags: TaggedFields::new(self.alloc),
        };
        frame_of(self.alloc, &Request::Commit(header, message))
    }
}
