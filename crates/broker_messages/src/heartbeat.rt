//! ConsumerGroupHeartbeat in version 1 (KIP-848): a heartbeat of version 0 and a regular expression over topic names.

ghost use Rattle.std.specs.Prelude.{◌≡◌, ℕ, List, ◌++◌, OnOk, OnErr};
ghost use Rattle.std.specs.Option.{option_copied};

mod reading;
mod writing;

use crate::fault::MessageFault;
pub use reading::read_heartbeat_1;
use std::alloc::Global;

/// A heartbeat of version 1 that has been cut at its regular expression. What stands after the expression has not been read.
#[derive(Clone, Copy)]
pub struct Heartbeat1<'a> {
    /// From the correlation id to the subscribed names.
    pub front: &'a [u8],
    /// SubscribedTopicRegex. Null and the empty text are none.
    pub subscribed_topic_regex: Option<&'a str>,
    /// From the assignor on.
    pub back: &'a [u8],
}

impl<'a> Heartbeat1<'a> {
    ghost use Rattle.broker_messages.specs.Heartbeat.{IsTranslation, expression_of, texts};
    ghost use Rattle.broker_messages.specs.Front.{IsCut};

    /// The regular expression, if there is one: null and the empty text are none (KIP-848).
    pub fn expression(&self) -> Option<&'a str>
        ensures { option_copied result ≡ expression_of (option_copied self.now.subscribed_topic_regex) }
    {
        match self.subscribed_topic_regex {
            Some(regex) if !regex.is_empty() => Some(regex),
            _ => None,
        }
    }

    /// Appends the body of the heartbeat of version 0 that means the same, without the size in front of it: the further names take the
    /// place of the regular expression, and are left out if there is none. What the body has after its expression is looked at only if
    /// there is one. So if the body is no heartbeat, what is appended is no request.
    ///
    /// Faults: memory; if there is an expression, those of `kip_msgs::read_request`, and `TooLong` for a further name of over 32,767
    /// bytes and for too many names. After a fault nothing has changed.
    pub fn put_as_version_0(
        &self,
        alloc: Global,
        further: &[&str],
        out: &mut Vec<u8>,
    ) -> Result<(), MessageFault>
        ensures ok { (body : List ℕ) → IsCut self.now body → OnOk result ((written : List ℕ)
            × IsTranslation (texts further.now) body written × (out.new.items ≡ out.old.items ++ written)) }
        ensures err { OnErr result (out.new.items ≡ out.old.items) }
    {
        match self.expression() {
            None => writing::put_without_expression(out, self),
            Some(_) => writing::put_with_names(alloc, out, self, further),
        }
    }
}
