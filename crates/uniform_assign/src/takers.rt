//! Who may take the partitions of each topic.

ghost use Rattle.std.specs.Prelude.{◌≡◌, ℕ, [], All, IfOk, OnOk, length};
ghost use Rattle.std.specs.Global.{Vec as HeapVec};
ghost use Rattle.topic_meta.specs.Views.{all_named};
ghost use Rattle.range_assign.specs.Marks.{NamesRise};
ghost use Rattle.range_assign.specs.Members.{subscribers_in};
ghost use Rattle.uniform_assign.specs.Boards.{AddsTaker, AllRise, AreTakers};

use range_assign::{Subscriber, marks_of};
use std::alloc::{AllocError, Global};
use topic_meta::ViewTopic;

/// For each topic the places of its subscribers among the members. The topics are in the order of their names.
pub(crate) fn takers_of(
    alloc: Global,
    topics: &[ViewTopic],
    members: &[Subscriber<'_>],
) -> Result<Vec<Vec<usize>>, AllocError>
    requires { NamesRise topics.now }
    ensures takers { IfOk result (λ all. AreTakers (all_named topics.now) (subscribers_in members.now) all.items) }
    ensures rise { IfOk result (λ all. AllRise all.items) }
{
    let mut all = no_takers(alloc, topics.len())?;
    for (at, member) in members.iter().enumerate() {
        let marks = marks_of(alloc, topics, member.names)?;
        add_taker(&mut all, &marks, at)?;
    }
    Ok(all)
}

/// No taker for each topic.
fn no_takers(alloc: Global, topics: usize) -> Result<Vec<Vec<usize>>, AllocError>
    ensures as_many { IfOk result (λ all. length all.items ≡ topics) }
    ensures empty { IfOk result (λ all. All (λ (takers : HeapVec ℕ). takers.items ≡ []) all.items) }
{
    let mut all = Vec::with_capacity(alloc, topics)?;
    for _ in 0..topics {
        all.push(Vec::new(alloc))?;
    }
    Ok(all)
}

/// Adds the member at a place to the takers of each topic that is marked. Where memory is short, it may be in some already.
fn add_taker(all: &mut Vec<Vec<usize>>, marks: &[bool], member: usize) -> Result<(), AllocError>
    requires { length marks.now ≡ length all.old.items }
    ensures { OnOk result (AddsTaker marks.now member all.old.items all.new.items) }
{
    for (t, marked) in marks.iter().enumerate() {
        if *marked {
            all[t].push(member)?;
        }
    }
    Ok(())
}
