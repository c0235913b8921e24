//! Connections that are at no event loop yet, and what is read and written of them at one.
ghost use Rattle.std.specs.Prelude.{◌≡◌, ◌≢◌, ◌⊎◌, ◌↔◌, ◌*◌, ◌-◌, ◌^◌, ◌<◌, ◌≤◌, true, min, Ok, Err, IsTrue, IfOk, IfSome, IsSome, IsSomeAnd, length};
ghost use Rattle.std.specs.Duration.{as_nanos};
ghost use Rattle.std.specs.IoError.{error_kind};
ghost use Rattle.std.specs.declared.io.ErrorKind.TheVariants.{WouldBlock};
ghost use Rattle.std.specs.Io.Slices.{io_slices_bytes};
ghost use Rattle.futures.specs.Task.{Covers, Keeps};
ghost use Rattle.futures.specs.Poll.{OnPending};
ghost use Rattle.tokio.specs.Io.Moved.{count_moved, bytes_moved, IfReadyErr};
ghost use Rattle.tokio.specs.Timers.{sleep_source};
ghost use Rattle.coord_server.specs.Interrupted.{IsInterrupted};

use crate::log::EndLog;
use crate::reason::Reason;
use crate::silence::Silence;
use futures::task::{Context, Poll};
use link_futures::{Counted, ReadPart, WriteParts};
use std::io;
use std::io::IoSlice;
use std::net::TcpStream;
use std::sync::Wait;
use std::time::Clock;
use tokio::io::{AsyncRead, AsyncWrite};
use tokio::net::{OwnedReadHalf, OwnedWriteHalf};
use tokio::runtime::Handle;

/// A connection that is at no event loop yet.
pub trait Connection: Drop {
    /// What is read of it.
    type Reader: ReadPart;

    /// What is written.
    type Writer: WriteParts;

    /// What is read and what is written of the connection with this number, at the event loop of this handle.
    fn open(self, number: u64, handle: &Handle) -> io::Result<(Self::Reader, Self::Writer)>;
}

/// What is read of a socket, and what is written.
pub type SocketReader<'a, R> = Counted<Retried<Limited<'a, OwnedReadHalf, R>>>;

pub type SocketWriter<'a, R> = Counted<Retried<Limited<'a, OwnedWriteHalf, R>>>;

/// Those of a reader and of a writer.
type Silences<'a, R> = (Option<Silence<'a, R>>, Option<Silence<'a, R>>);

/// A socket, and after how many seconds it is closed that it brings no byte. One whose client takes no byte of a reply for twice as
/// long is closed too. The log says so.
#[derive(Drop)]
pub struct Socket<'a, R> {
    pub stream: TcpStream,
    pub clock: &'a R,
    pub log: &'a EndLog,
    /// None: it isn't closed for that.
    pub idle: Option<u64>,
}

impl<'a, R: Clock + Wait> Socket<'a, R> {
    /// The silences of its reader and of its writer, which has twice as long, where it is the connection with this number.
    fn silences(&self, number: u64, handle: &Handle) -> io::Result<Silences<'a, R>> {
        let reads = self.silence(number, handle, 1)?;
        let writes = self.silence(number, handle, 2)?;
        Ok((reads, writes))
    }

    /// A silence of `times` times `idle` seconds, or none where `idle` is none.
    fn silence(
        &self,
        number: u64,
        handle: &Handle,
        times: u64,
    ) -> io::Result<Option<Silence<'a, R>>>
        ensures { IfOk result (λ silence. (IsSome silence → IsSome self.now.idle) × IfSome self.now.idle (λ seconds.
            IsSomeAnd silence (λ silence. as_nanos silence.longest ≡ min (seconds * times) (2 ^ 64 - 1) * 1_000_000_000))) }
    {
        let Some(seconds) = self.idle else {
            return Ok(None);
        };
        let seconds = seconds.saturating_mul(times);
        let silence = Silence::new(self.clock, handle.time(), seconds, self.log, number)?;
        Ok(Some(silence))
    }
}

/// The halves of a socket at the event loop of a handle. It has TCP_NODELAY, since a reply is not to wait for the next one.
fn halves_of(stream: TcpStream, handle: &Handle) -> io::Result<(OwnedReadHalf, OwnedWriteHalf)> {
    let stream = tokio::net::TcpStream::from_std(stream, handle.reactor())?;
    stream.set_nodelay(true)?;
    Ok(stream.into_split()?)
}

impl<'a, R: Clock + Wait> Connection for Socket<'a, R> {
    type Reader = SocketReader<'a, R>;

    type Writer = SocketWriter<'a, R>;

    fn open(
        self,
        number: u64,
        handle: &Handle,
    ) -> io::Result<(SocketReader<'a, R>, SocketWriter<'a, R>)> {
        let (reads, writes) = self.silences(number, handle)?;
        let (reader, writer) = halves_of(self.stream, handle)?;
        Ok((
            Counted::new(Retried::new(Limited::new(reader, reads))),
            Counted::new(Retried::new(Limited::new(writer, writes))),
        ))
    }
}

/// A reader and a writer that need no event loop, as those over memory.
impl<I: ReadPart, O: WriteParts> Connection for (I, O) {
    type Reader = I;

    type Writer = O;

    fn open(self, _number: u64, _handle: &Handle) -> io::Result<(I, O)>
        ensures { result ≡ Ok self }
    {
        Ok(self)
    }
}

/// A reader or a writer whose interrupted calls are made again, at the next poll.
#[derive(Drop)]
pub struct Retried<T> {
    inner: T,
}

impl<T> Retried<T> {
    /// The same reader or writer.
    pub fn new(inner: T) -> Retried<T>
        ensures { result.inner ≡ inner }
    {
        Retried { inner }
    }
}

/// Whether a call was interrupted.
fn is_interrupted<T>(polled: &Poll<io::Result<T>>) -> bool
    ensures { IsTrue result ↔ IsInterrupted polled.now }
{
    match polled {
        Poll::Ready(Err(error)) => error.kind() == io::ErrorKind::Interrupted,
        Poll::Ready(Ok(_)) | Poll::Pending => false,
    }
}

impl<R: AsyncRead> AsyncRead for Retried<R> {
    ghost needs = { λ c. R.needs c.inner };

    ghost reads = { λ a xs b. R.reads a.inner xs b.inner };

    ghost is_at_end = { λ c. R.is_at_end c.inner };

    ghost fails = { λ c. R.fails c.inner };

    ghost reads_nothing = { λ c. R.reads_nothing c.inner };

    ghost reads_in_order = { λ a xs b ys c. R.reads_in_order a.inner xs b.inner ys c.inner };

    fn poll_read(&mut self, cx: &mut Context<'_>, buf: &mut [u8]) -> Poll<io::Result<usize>>
        ensures retried { ¬ (IsInterrupted result) }
        ensures bound { count_moved result ≤ length buf.new }
        ensures bytes { R.reads self.old.inner (bytes_moved result buf.new) self.new.inner }
        ensures end { result ≡ Poll.Ready (Ok 0) → 0 < length buf.old → R.is_at_end self.new.inner }
        ensures failed { IfReadyErr result (R.fails self.new.inner) }
        ensures registered { OnPending result (Covers cx.new (R.needs self.new.inner)) }
        ensures kept { Keeps cx.old cx.new }
    {
        let read = self.inner.poll_read(cx, buf);
        if is_interrupted(&read) {
            return cx.yield_now();
        }
        read
    }
}

impl<W: AsyncWrite> AsyncWrite for Retried<W> {
    ghost needs = { λ c. W.needs c.inner };

    ghost writes = { λ a xs b. W.writes a.inner xs b.inner };

    ghost is_flushed = { λ c. W.is_flushed c.inner };

    ghost is_shut_down = { λ c. W.is_shut_down c.inner };

    ghost is_full = { λ c. W.is_full c.inner };

    ghost fails = { λ c. W.fails c.inner };

    ghost writes_nothing = { λ c. W.writes_nothing c.inner };

    ghost writes_in_order = { λ a xs b ys c. W.writes_in_order a.inner xs b.inner ys c.inner };

    fn poll_write(&mut self, cx: &mut Context<'_>, buf: &[u8]) -> Poll<io::Result<usize>>
        ensures retried { ¬ (IsInterrupted result) }
        ensures bound { count_moved result ≤ length buf.now }
        ensures bytes { W.writes self.old.inner (bytes_moved result buf.now) self.new.inner }
        ensures full { result ≡ Poll.Ready (Ok 0) → 0 < length buf.now → W.is_full self.new.inner }
        ensures failed { IfReadyErr result (W.fails self.new.inner) }
        ensures registered { OnPending result (Covers cx.new (W.needs self.new.inner)) }
        ensures kept { Keeps cx.old cx.new }
    {
        let written = self.inner.poll_write(cx, buf);
        if is_interrupted(&written) {
            return cx.yield_now();
        }
        written
    }

    fn poll_write_vectored(
        &mut self,
        cx: &mut Context<'_>,
        bufs: &[IoSlice<'_>],
    ) -> Poll<io::Result<usize>>
        ensures retried { ¬ (IsInterrupted result) }
        ensures bound { count_moved result ≤ length (io_slices_bytes bufs.now) }
        ensures bytes { W.writes self.old.inner (bytes_moved result (io_slices_bytes bufs.now)) self.new.inner }
        ensures full { result ≡ Poll.Ready (Ok 0) → 0 < length (io_slices_bytes bufs.now) → W.is_full self.new.inner }
        ensures failed { IfReadyErr result (W.fails self.new.inner) }
        ensures registered { OnPending result (Covers cx.new (W.needs self.new.inner)) }
        ensures kept { Keeps cx.old cx.new }
    {
        let written = self.inner.poll_write_vectored(cx, bufs);
        if is_interrupted(&written) {
            return cx.yield_now();
        }
        written
    }

    fn is_write_vectored(&self) -> bool {
        self.inner.is_write_vectored()
    }

    fn poll_flush(&mut self, cx: &mut Context<'_>) -> Poll<io::Result<()>> {
        self.inner.poll_flush(cx)
    }

    fn poll_shutdown(&mut self, cx: &mut Context<'_>) -> Poll<io::Result<()>> {
        self.inner.poll_shutdown(cx)
    }
}

/// A reader that is at its end once it has brought no byte for too long; or a writer that fails once it has taken none for too long while
/// it was asked to. Before that the reader or the writer itself is asked once more, since an event loop may know less: bytes that are there
/// are read, and bytes for which there is room are written. Where there is no limit it is the same as without.
#[derive(Drop)]
pub struct Limited<'a, T, R> {
    inner: T,
    silence: Option<Silence<'a, R>>,
    /// The silence was too long.
    is_silent: bool,
}

impl<'a, T, R: Clock + Wait> Limited<'a, T, R> {
    /// The same reader or writer.
    pub fn new(inner: T, silence: Option<Silence<'a, R>>) -> Limited<'a, T, R>
        ensures { (result.inner ≡ inner) × (result.silence ≡ silence.entry) }
    {
        Limited {
            inner,
            silence,
            is_silent: false,
        }
    }

    /// A byte was moved: the silence is over.
    fn hear(&mut self)
        ensures { (self.new.inner ≡ self.old.inner) × (self.new.is_silent ≡ self.old.is_silent) }
    {
        if let Some(silence) = &mut self.silence {
            silence.clear();
        }
    }

    /// A poll has found nothing: waits until the silence is too long.
    fn poll_silence(&mut self, cx: &mut Context<'_>) -> Poll<()>
        ensures inner { (self.new.inner ≡ self.old.inner) × (self.new.is_silent ≡ self.old.is_silent) }
        ensures registered { OnPending result (IfSome self.new.silence (λ silence. Covers cx.new (λ source. source ≡ sleep_source silence.sleep))) }
        ensures kept { Keeps cx.old cx.new }
    {
        match &mut self.silence {
            Some(silence) => silence.poll_end(cx),
            None => Poll::Pending,
        }
    }

    /// What a call of the reader or the writer came to. Where it moved a byte the silence is over.
    fn heard(&mut self, moved: Poll<io::Result<usize>>) -> Poll<io::Result<usize>>
        ensures same { result ≡ moved }
        ensures inner { (self.new.inner ≡ self.old.inner) × (self.new.is_silent ≡ self.old.is_silent) }
    {
        if let Poll::Ready(Ok(_)) = &moved {
            self.hear();
        }
        moved
    }

    /// It takes no byte for too long: the error that says so.
    fn time_out(&mut self) -> io::Error
        ensures { (self.new.inner ≡ self.old.inner) × (self.new.is_silent ≡ true) }
    {
        self.is_silent = true;
        if let Some(silence) = &self.silence {
            silence.note(Reason::Unread(silence.seconds()));
        }
        io::Error::from(io::ErrorKind::TimedOut)
    }
}

impl<'a, T: ReadAtOnce, R: Clock + Wait> Limited<'a, T, R> {
    /// After a silence that was too long: what the reader has is read. Where it has nothing this is the end.
    fn read_last(&mut self, buf: &mut [u8]) -> Poll<io::Result<usize>>
        ensures bound { count_moved result ≤ length buf.new }
        ensures bytes { T.reads self.old.inner (bytes_moved result buf.new) self.new.inner }
        ensures end { result ≡ Poll.Ready (Ok 0) → 0 < length buf.old → (self.new.is_silent ≡ true) ⊎ T.is_at_end self.new.inner }
        ensures failed { IfReadyErr result (λ error. T.fails self.new.inner error) }
        ensures ready { OnPending result ⊥ }
    {
        match self.inner.read_at_once(buf) {
            Poll::Pending => {
                self.is_silent = true;
                if let Some(silence) = &self.silence {
                    silence.note(Reason::Silent(silence.seconds()));
                }
                Poll::Ready(Ok(0))
            }
            read => self.heard(read),
        }
    }
}

impl<'a, T: WriteAtOnce, R: Clock + Wait> Limited<'a, T, R> {
    /// After a silence that was too long: what there is room for is written. Where there is none it fails.
    fn write_last(&mut self, buf: &[u8]) -> Poll<io::Result<usize>>
        ensures bound { count_moved result ≤ length buf.now }
        ensures bytes { T.writes self.old.inner (bytes_moved result buf.now) self.new.inner }
        ensures full { result ≡ Poll.Ready (Ok 0) → 0 < length buf.now → T.is_full self.new.inner }
        ensures failed { IfReadyErr result (λ error. (self.new.is_silent ≡ true) ⊎ T.fails self.new.inner error) }
        ensures ready { OnPending result ⊥ }
    {
        match self.inner.write_at_once(buf) {
            Poll::Pending => Poll::Ready(Err(self.time_out())),
            written => self.heard(written),
        }
    }

    /// The same of the buffers joined in order.
    fn write_all_last(&mut self, bufs: &[IoSlice<'_>]) -> Poll<io::Result<usize>>
        ensures bound { count_moved result ≤ length (io_slices_bytes bufs.now) }
        ensures bytes { T.writes self.old.inner (bytes_moved result (io_slices_bytes bufs.now)) self.new.inner }
        ensures full { result ≡ Poll.Ready (Ok 0) → 0 < length (io_slices_bytes bufs.now) → T.is_full self.new.inner }
        ensures failed { IfReadyErr result (λ error. (self.new.is_silent ≡ true) ⊎ T.fails self.new.inner error) }
        ensures ready { OnPending result ⊥ }
    {
        match self.inner.write_all_at_once(bufs) {
            Poll::Pending => Poll::Ready(Err(self.time_out())),
            written => self.heard(written),
        }
    }
}

impl<'a, T: ReadAtOnce, R: Clock + Wait> AsyncRead for Limited<'a, T, R> {
    ghost use Rattle.coord_server.specs.Silences.{LimitedNeeds};

    ghost needs = { λ c. LimitedNeeds (T.needs c.inner) c.silence };

    ghost reads = { λ a xs b. T.reads a.inner xs b.inner };

    ghost is_at_end = { λ c. (c.is_silent ≡ true) ⊎ T.is_at_end c.inner };

    ghost fails = { λ c. T.fails c.inner };

    ghost reads_nothing = { λ c. T.reads_nothing c.inner };

    ghost reads_in_order = { λ a xs b ys c. T.reads_in_order a.inner xs b.inner ys c.inner };

    fn poll_read(&mut self, cx: &mut Context<'_>, buf: &mut [u8]) -> Poll<io::Result<usize>> {
        match self.inner.poll_read(cx, buf) {
            Poll::Pending => match self.poll_silence(cx) {
                Poll::Pending => Poll::Pending,
                Poll::Ready(()) => self.read_last(buf),
            },
            read => self.heard(read),
        }
    }
}

impl<'a, T: WriteAtOnce, R: Clock + Wait> AsyncWrite for Limited<'a, T, R> {
    ghost use Rattle.coord_server.specs.Silences.{LimitedNeeds};

    ghost needs = { λ c. LimitedNeeds (T.needs c.inner) c.silence };

    ghost writes = { λ a xs b. T.writes a.inner xs b.inner };

    ghost is_flushed = { λ c. T.is_flushed c.inner };

    ghost is_shut_down = { λ c. T.is_shut_down c.inner };

    ghost is_full = { λ c. T.is_full c.inner };

    ghost fails = { λ c error. (c.is_silent ≡ true) ⊎ T.fails c.inner error };

    ghost writes_nothing = { λ c. T.writes_nothing c.inner };

    ghost writes_in_order = { λ a xs b ys c. T.writes_in_order a.inner xs b.inner ys c.inner };

    fn poll_write(&mut self, cx: &mut Context<'_>, buf: &[u8]) -> Poll<io::Result<usize>> {
        match self.inner.poll_write(cx, buf) {
            Poll::Pending => match self.poll_silence(cx) {
                Poll::Pending => Poll::Pending,
                Poll::Ready(()) => self.write_last(buf),
            },
            written => self.heard(written),
        }
    }

    fn poll_write_vectored(
        &mut self,
        cx: &mut Context<'_>,
        bufs: &[IoSlice<'_>],
    ) -> Poll<io::Result<usize>> {
        match self.inner.poll_write_vectored(cx, bufs) {
            Poll::Pending => match self.poll_silence(cx) {
                Poll::Pending => Poll::Pending,
                Poll::Ready(()) => self.write_all_last(bufs),
            },
            written => self.heard(written),
        }
    }

    fn is_write_vectored(&self) -> bool {
        self.inner.is_write_vectored()
    }

    fn poll_flush(&mut self, cx: &mut Context<'_>) -> Poll<io::Result<()>> {
        match self.inner.poll_flush(cx) {
            Poll::Pending => match self.poll_silence(cx) {
                Poll::Pending => Poll::Pending,
                Poll::Ready(()) => Poll::Ready(Err(self.time_out())),
            },
            flushed => flushed,
        }
    }

    fn poll_shutdown(&mut self, cx: &mut Context<'_>) -> Poll<io::Result<()>> {
        match self.inner.poll_shutdown(cx) {
            Poll::Pending => match self.poll_silence(cx) {
                Poll::Pending => Poll::Pending,
                Poll::Ready(()) => Poll::Ready(Err(self.time_out())),
            },
            shut => shut,
        }
    }
}

/// A reader that can be asked at once. The event loop learns late of bytes that came while the process was stopped.
pub trait ReadAtOnce: AsyncRead {
    /// Reads what is there. Pending where there is nothing: it doesn't wait.
    fn read_at_once(&mut self, buf: &mut [u8]) -> Poll<io::Result<usize>>
        ensures bound { count_moved result ≤ length buf.new }
        ensures bytes { Self.reads self.old (bytes_moved result buf.new) self.new }
        ensures end { result ≡ Poll.Ready (Ok 0) → 0 < length buf.old → Self.is_at_end self.new }
        ensures failed { IfReadyErr result (Self.fails self.new) };
}

/// A writer that can be asked at once. The event loop learns of room only once much of it is there.
pub trait WriteAtOnce: AsyncWrite {
    /// Writes what there is room for. Pending where there is none: it doesn't wait.
    fn write_at_once(&mut self, buf: &[u8]) -> Poll<io::Result<usize>>
        ensures bound { count_moved result ≤ length buf.now }
        ensures bytes { Self.writes self.old (bytes_moved result buf.now) self.new }
        ensures full { result ≡ Poll.Ready (Ok 0) → 0 < length buf.now → Self.is_full self.new }
        ensures failed { IfReadyErr result (Self.fails self.new) };

    /// The same of the buffers joined in order.
    fn write_all_at_once(&mut self, bufs: &[IoSlice<'_>]) -> Poll<io::Result<usize>>
        ensures bound { count_moved result ≤ length (io_slices_bytes bufs.now) }
        ensures bytes { Self.writes self.old (bytes_moved result (io_slices_bytes bufs.now)) self.new }
        ensures full { result ≡ Poll.Ready (Ok 0) → 0 < length (io_slices_bytes bufs.now) → Self.is_full self.new }
        ensures failed { IfReadyErr result (Self.fails self.new) };
}

impl ReadAtOnce for OwnedReadHalf {
    fn read_at_once(&mut self, buf: &mut [u8]) -> Poll<io::Result<usize>> {
        match self.try_read(buf) {
            Ok(count) => Poll::Ready(Ok(count)),
            Err(error) => unless_it_waits(error),
        }
    }
}

impl WriteAtOnce for OwnedWriteHalf {
    fn write_at_once(&mut self, buf: &[u8]) -> Poll<io::Result<usize>> {
        match self.try_write(buf) {
            Ok(count) => Poll::Ready(Ok(count)),
            Err(error) => unless_it_waits(error),
        }
    }

    fn write_all_at_once(&mut self, bufs: &[IoSlice<'_>]) -> Poll<io::Result<usize>> {
        match self.try_write_vectored(bufs) {
            Ok(count) => Poll::Ready(Ok(count)),
            Err(error) => unless_it_waits(error),
        }
    }
}

/// That a call failed, unless it would have waited.
fn unless_it_waits(error: io::Error) -> Poll<io::Result<usize>>
    ensures none { count_moved result ≡ 0 }
    ensures waits { error_kind error ≡ WouldBlock → result ≡ Poll.Pending }
    ensures fails { error_kind error ≢ WouldBlock → result ≡ Poll.Ready (Err error) }
{
    if error.kind() == io::ErrorKind::WouldBlock {
        return Poll::Pending;
    }
    Poll::Ready(Err(error))
}
