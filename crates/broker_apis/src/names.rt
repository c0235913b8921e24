//! The names of topics.
ghost use Rattle.std.specs.Prelude.{◌≡◌, IfOk};
ghost use Rattle.topic_expressions.specs.Expressions.{texts};
ghost use Rattle.broker_apis.specs.Names.{names_of};

use broker_topics::Topic;
use std::alloc::{AllocError, Global};

/// The names of topics, in their order. Fails for want of memory.
pub(crate) fn names_of(alloc: Global, topics: &[Topic]) -> Result<Vec<&str>, AllocError>
    ensures { IfOk result (λ names. texts names.items ≡ names_of topics.now) }
{
    let mut names = Vec::with_capacity(alloc, topics.len())?;
    for topic in topics {
        names.push(topic.name.as_str())?;
    }
    Ok(names)
}
