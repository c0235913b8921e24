//! A line that waits for its reader alone.
ghost use Rattle.std.specs.Prelude.{IsSomeAnd};

use crate::end::End;
use crate::line::Line;
use crate::reader::ReadPart;
use crate::writer::WriteParts;
use futures::Future;
use futures::task::{Context, Poll};

/// A line that waits for its reader alone. It gives the line back once bytes have come, or the reader's end, or with the line's
/// own end.
#[derive(Drop)]
pub struct Quiet<L> {
    /// None once it was given back.
    pub(crate) line: Option<L>,
}

impl<R: ReadPart, W: WriteParts> Future for Quiet<Line<R, W>> {
    ghost use Rattle.link_futures.specs.Resting.{Wakes};

    type Output = Result<Line<R, W>, (Line<R, W>, End)>;

    ghost needs = { λ q source. IsSomeAnd q.line (λ line. R.needs line.reader source) };

    ghost gives = { λ q woken. IsSomeAnd q.line (λ line. Wakes R.reads R.is_at_end R.faults W.faults W.stalls line woken) };

    /// Reads once.
    fn poll(&mut self, cx: &mut Context<'_>) -> Poll<Result<Line<R, W>, (Line<R, W>, End)>> {
        let Some(mut line) = self.line.take() else {
            return cx.yield_now();
        };
        match line.read(cx) {
            Ok(true) => {
                self.line = Some(line);
                Poll::Pending
            }
            Ok(false) => Poll::Ready(Ok(line)),
            Err(end) => Poll::Ready(Err((line, end))),
        }
    }
}
