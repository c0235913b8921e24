//! What a member makes of a reply.
ghost use Rattle.std.specs.Prelude.{◌≡◌, Some, IfOk, OnOk, OnErr};
ghost use Rattle.group_types.specs.Sets.{union, minus, size};
ghost use Rattle.member_core.specs.Taking.{Fences, Ends, after_news, showing};
ghost use Rattle.member_core.specs.Outcomes.{acceptance_news, IsOutcome};

use super::{Machine, Place};
use crate::acceptance::Acceptance;
use crate::news::{News, Report};
use group_types::{EpochNumber, PartSet};
use std::alloc::{AllocError, Global};

/// What became of a member that took a reply; the codes are those of the reply.
#[derive(Clone, Copy, Debug, PartialEq, Eq)]
pub(crate) enum Outcome {
    Accepted,
    Fenced,
    Kept(i16),
    Ended(i16),
}

impl Machine {
    /// Takes the reply to the latest request. Other bytes change nothing, and are no outcome. Where memory is short,
    /// nothing changes.
    pub(crate) fn take(&mut self, body: &[u8]) -> Result<Option<Outcome>, AllocError>
        ensures outcome { IfOk result (λ outcome. IsOutcome self.old body.now outcome self.new) }
        ensures unchanged { OnErr result (self.new ≡ self.old) }
    {
        let Some(report) = Report::read(self.alloc, self.number, body)? else {
            return Ok(None);
        };
        let Report { news, code } = report;
        match news {
            News::Accepts(acceptance) => {
                self.accept(acceptance)?;
                Ok(Some(Outcome::Accepted))
            }
            News::Fences => {
                self.fence();
                Ok(Some(Outcome::Fenced))
            }
            News::Retries => {
                self.give_up();
                Ok(Some(Outcome::Kept(code)))
            }
            News::Ends => {
                self.end();
                Ok(Some(Outcome::Ended(code)))
            }
        }
    }

    /// Becomes, or stays, a member with this id at this epoch. Where memory is short, nothing changes.
    fn accept(&mut self, acceptance: Acceptance) -> Result<(), AllocError>
        ensures accepted { OnOk result (self.new ≡ after_news self.old (acceptance_news acceptance)) }
        ensures unchanged { OnErr result (self.new ≡ self.old) }
    {
        let Acceptance {
            id,
            epoch,
            assignment,
        } = acceptance;
        if let Some(shown) = assignment {
            self.show(shown)?;
        }
        self.place = Place::Inside;
        self.id = Some(id);
        self.epoch = epoch;
        self.waits = false;
        Ok(())
    }

    /// Is shown an assignment, and owns it beside what it owned. Where memory is short, nothing changes.
    fn show(&mut self, shown: PartSet) -> Result<(), AllocError>
        ensures shown { OnOk result (self.new ≡ showing self.old (Some shown)) }
        ensures unchanged { OnErr result (self.new ≡ self.old) }
    {
        let own = union_of(self.alloc, &self.own, &shown)?;
        self.to_release = count_beside(&own, &shown);
        self.own = own;
        self.shown = shown;
        Ok(())
    }

    /// Isn't a member any more, and owns nothing.
    fn fence(&mut self)
        ensures { self.new ≡ after_news self.old Fences }
    {
        self.place = Place::Outside;
        self.epoch = EpochNumber::zero();
        self.own.clear();
        self.shown.clear();
        self.to_release = 0;
        self.waits = false;
    }

    /// Is gone for good.
    fn end(&mut self)
        ensures { self.new ≡ after_news self.old Ends }
    {
        self.place = Place::Gone;
        self.own.clear();
        self.to_release = 0;
        self.waits = false;
    }
}

/// The partitions of both sets. Fails where memory is short.
fn union_of(alloc: Global, one: &PartSet, other: &PartSet) -> Result<PartSet, AllocError>
    ensures { IfOk result (λ all. all ≡ union one.now other.now) }
{
    let mut all = Vec::new(alloc);
    for p in one.iter() {
        all.push(*p)?;
    }
    for p in other.iter() {
        all.push(*p)?;
    }
    Ok(PartSet::of_vec(all))
}

/// How many partitions of the first set aren't in the second.
fn count_beside(one: &PartSet, other: &PartSet) -> usize
    ensures { result ≡ size (minus one.now other.now) }
{
    one.iter().filter(|p| !other.contains(p)).count()
}
