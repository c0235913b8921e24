//! Members that commit offsets.
ghost use Rattle.std.specs.Prelude.{◌≡◌, false, map, All, IfOk, IfErr};
ghost use Rattle.kip_msgs.specs.Views.{commit_request_topic_value};
ghost use Rattle.member_core.specs.Commits.{commit_under};
ghost use Rattle.member_core.specs.Framing.{IsRequestFrame};
ghost use Rattle.member_core.specs.Refusing.{size_refusal, IsFault};
ghost use Rattle.member_core.specs.Writing.{HasShortTopic, are_few};

use super::Member;
use crate::fault::BeatFault;
use crate::stage::Commits;
use kip_msgs::{Array, CommitRequestTopic};

impl<S: Commits> Member<S> {
    /// The frame, size and body, of a commit of these offsets at the member epoch that the member knows (KIP-848,
    /// "OffsetCommit"), also while the member waits for a reply. The member stays as it is.
    ///
    /// The texts of the list are at most 32,767 bytes, and its tagged fields rise. Faults: `TooLarge`, which takes no memory to
    /// see where a list has more elements than a frame may have bytes; or `NoMemory`.
    pub fn commit<'a>(
        &'a self,
        correlation: i32,
        topics: Array<CommitRequestTopic<'a>>,
    ) -> Result<Vec<u8>, BeatFault>
        requires { All HasShortTopic (map commit_request_topic_value topics) }
        ensures frame { IfOk result (λ frame.
            IsRequestFrame (commit_under self.now correlation (map commit_request_topic_value topics.entry)) frame.items) }
        ensures fault { IfErr result (λ fault.
            IsFault (size_refusal (commit_under self.now correlation (map commit_request_topic_value topics.entry))) fault) }
        ensures many { are_few (commit_under self.now correlation (map commit_request_topic_value topics.entry)) ≡ false
            → result ≡ Err BeatFault.TooLarge }
    {
        self.machine.commit(correlation, topics)
    }
}
