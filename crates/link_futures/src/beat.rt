//! The future of one request of a member.
ghost use Rattle.std.specs.Prelude.{IsSomeAnd};
ghost use Rattle.futures.specs.Task.{Covers, Keeps};
ghost use Rattle.futures.specs.Poll.{IfReady, OnPending};

use crate::call::Call;
use crate::end::End;
use crate::limits::SIZE_BYTES;
use crate::reader::ReadPart;
use crate::writer::WriteParts;
use bytes::BytesMut;
use futures::Future;
use futures::task::{Context, Poll};
use member_core::{Idle, Member, Next, Sent};
use std::alloc::Global;

/// The future of one request of a member: it writes the request's frame, reads the frame of the reply, and the member takes
/// the reply. A poll writes once or reads once. It takes no byte of the reader after the reply.
#[derive(Drop)]
pub struct Beat<R, W, S: Idle> {
    /// None once it has given its output.
    call: Option<Call<R, W, S>>,
}

/// What a beat gives.
#[derive(Drop)]
pub struct AfterBeat<R, W, S: Idle> {
    pub reader: R,
    pub writer: W,
    /// What the member makes of the reply. Where the beat failed, the member that has given up, and why: `Finished` where the
    /// reader ended before the reply and `CutShort` within it, `Closed` at a size that is not 1 to 16,777,216, `ReadFault`
    /// and `WriteFault` where a poll failed (a write that took no byte too), and `NoMemory`.
    pub member: Result<Next<S>, (Member<S>, End)>,
}

impl<R: ReadPart, W: WriteParts, S: Idle> Beat<R, W, S> {
    ghost use Rattle.link_futures.specs.Beats.{IsRequestOf, IsUnderWay, IsNewCall, CallGives, BeatComesTo};
    ghost use Rattle.link_futures.specs.declared.beat.AfterBeat.{AfterBeat};

    /// A beat of a member that waits for the reply to its request, whose frame this is. Takes no memory.
    pub fn new(
        alloc: Global,
        reader: R,
        writer: W,
        member: Member<Sent<S>>,
        request: Vec<u8>,
    ) -> Beat<R, W, S>
        requires { IsRequestOf member request.items }
        ensures fresh { IsSomeAnd result.call (λ call. IsNewCall call reader writer member request.items) }
        ensures ready { IsSomeAnd result.call IsUnderWay }
        ensures gives { (after : AfterBeat R W S)
            → IsSomeAnd result.call (λ call. CallGives R.reads R.is_at_end R.faults W.writes W.faults W.stalls call after)
            → BeatComesTo R.reads W.writes reader writer member request.items after.reader after.writer after.member }
    {
        Beat {
            call: Some(Call {
                reader,
                writer,
                member,
                request: BytesMut::from_vec(request),
                reply: BytesMut::new(alloc),
                missing: SIZE_BYTES,
            }),
        }
    }
}

impl<R: ReadPart, W: WriteParts, S: Idle> Future for Beat<R, W, S> {
    ghost use Rattle.link_futures.specs.Beats.{IsUnderWay, CallNeeds, Polls, CallMetNoFault, ComesBack, CallGives};
    ghost use Rattle.link_futures.specs.declared.call.Call.{Call};
    ghost use Rattle.link_futures.specs.declared.beat.AfterBeat.{AfterBeat};

    type Output = AfterBeat<R, W, S>;

    ghost can_poll = { λ b. IsSomeAnd b.call IsUnderWay };

    ghost needs = { λ b source. IsSomeAnd b.call (λ call. CallNeeds R.needs W.needs call source) };

    ghost gives = { λ b after. IsSomeAnd b.call (λ call. CallGives R.reads R.is_at_end R.faults W.writes W.faults W.stalls call after) };

    /// Writes once or reads once.
    fn poll(&mut self, cx: &mut Context<'_>) -> Poll<AfterBeat<R, W, S>>
        requires { IsSomeAnd self.old.call IsUnderWay }
        ensures polls { IfReady result (λ after. IsSomeAnd self.old.call (λ call. (last : Call R W S) × Polls R.reads W.writes call last
            × ComesBack R.faults W.faults W.stalls R.is_at_end call last after)) }
        ensures goes_on { OnPending result (IsSomeAnd self.old.call (λ old. IsSomeAnd self.new.call (λ new.
            Polls R.reads W.writes old new × CallMetNoFault R.faults W.faults W.stalls old new))) }
        ensures value { IfReady result (λ after. IsSomeAnd self.old.call (λ call. CallGives R.reads R.is_at_end R.faults W.writes W.faults W.stalls call after)) }
        ensures again { OnPending result (IsSomeAnd self.new.call IsUnderWay) }
        ensures same { OnPending result ((after : AfterBeat R W S)
            → IsSomeAnd self.new.call (λ call. CallGives R.reads R.is_at_end R.faults W.writes W.faults W.stalls call after)
            → IsSomeAnd self.old.call (λ call. CallGives R.reads R.is_at_end R.faults W.writes W.faults W.stalls call after)) }
        ensures registered { OnPending result (Covers cx.new (λ source. IsSomeAnd self.new.call (λ call. CallNeeds R.needs W.needs call source))) }
        ensures kept { Keeps cx.old cx.new }
    {
        let Some(mut call) = self.call.take() else {
            unreachable!()
        };
        match call.poll(cx) {
            Poll::Ready(end) => Poll::Ready(call.finish(end)),
            Poll::Pending => {
                self.call = Some(call);
                Poll::Pending
            }
        }
    }
}
