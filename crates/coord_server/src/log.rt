//! The log of connections that have ended.
//!
//! Its lines go through a queue to a thread of their own, which alone writes them: where nobody reads them, or reads them slowly, no
//! worker waits for that.
ghost use Rattle.std.specs.Prelude.{◌<◌, vec_len, IfSome};

use crate::fault::ServerFault;
use crate::reason::{Reason, reason_of};
use link_futures::End;
use std::alloc::{AllocGlobal, Global};
use std::fmt::{Display, Formatter};
use std::io::Write;
use std::sync::{Arc, Condvar, Mutex, Wait};
use std::thread::Threads;
use std::time::{Clock, Duration};
use std::{fmt, mem, thread};

/// How many lines may wait to be written. Those that come while so many wait are left out, and counted.
const MOST_LINES: usize = 4_096;

/// For how many seconds the end of a server waits for the last lines to be written.
const LONGEST_WAIT: u64 = 2;

/// A log of connections that have ended, or none. Workers share it.
#[derive(Drop)]
pub struct EndLog {
    queue: Option<Arc<LogQueue>>,
}

impl EndLog {
    /// No log.
    pub fn none() -> EndLog {
        EndLog { queue: None }
    }

    /// A log that goes to this writer, by a thread of its own. The thread ends once the log is closed and its lines are written, and
    /// nobody waits for it longer than [`EndLog::close`] does: a write that hangs holds up that thread alone.
    pub fn start<R, W>(rt: &R, writer: W) -> Result<EndLog, ServerFault>
    where
        R: Wait + Threads + AllocGlobal + Copy + Send + 'static,
        W: Write + Drop + Send + 'static,
    {
        let queue = Arc::new(rt.alloc(), LogQueue::new(rt.alloc()))?;
        let (there, theirs) = (*rt, Arc::try_clone(&queue)?);
        match thread::spawn(rt, move || theirs.write_all(&there, writer)) {
            Ok(_) => Ok(EndLog { queue: Some(queue) }),
            Err(_) => Err(ServerFault::NoThread),
        }
    }

    /// A log that goes to this writer, if one is wanted.
    pub fn start_if<R, W>(is_wanted: bool, rt: &R, writer: W) -> Result<EndLog, ServerFault>
    where
        R: Wait + Threads + AllocGlobal + Copy + Send + 'static,
        W: Write + Drop + Send + 'static,
    {
        if is_wanted {
            EndLog::start(rt, writer)
        } else {
            Ok(EndLog::none())
        }
    }

    /// Notes why the server closes the connection with this number, before it ends.
    pub fn note_reason<R: Wait>(&self, rt: &R, connection: u64, reason: Reason) {
        if let Some(queue) = &self.queue {
            queue.add_reason(rt, connection, Some(reason));
        }
    }

    /// Notes that the server closes the connection with this number on account of the body of a frame.
    pub fn note_body<R: Wait>(&self, rt: &R, alloc: Global, connection: u64, body: &[u8]) {
        if let Some(queue) = &self.queue {
            queue.add_reason(rt, connection, reason_of(alloc, body));
        }
    }

    /// Notes that the connection with this number has ended, with `answered` frames answered.
    pub fn note<R: Wait>(&self, rt: &R, connection: u64, answered: u64, end: End) {
        if let Some(queue) = &self.queue {
            queue.add(rt, connection, answered, end);
        }
    }

    /// Lets the lines that wait be written, and gives whether they are, two seconds later at the latest.
    pub fn close<R: Wait + Clock>(&self, rt: &R) -> bool {
        match &self.queue {
            Some(queue) => {
                queue.close(rt);
                queue.wait_for_end(rt)
            }
            None => true,
        }
    }
}

/// The lines of a log that wait to be written.
#[derive(Drop)]
pub struct LogQueue {
    waiting: Mutex<Waiting>,
    changed: Condvar,
    alloc: Global,
}

/// What waits to be written.
#[derive(Drop)]
struct Waiting {
    entries: Vec<Entry>,
    /// Why the server closes connections that haven't ended yet, by their numbers.
    reasons: Vec<(u64, Reason)>,
    /// A reason isn't known, for want of memory.
    lacks_reasons: bool,
    /// How many lines were left out since the last one that waits.
    left_out: u64,
    /// No line comes any more.
    is_closed: bool,
    /// The last line is written.
    is_written: bool,
}

/// That a connection has ended.
#[derive(Clone, Copy)]
struct Entry {
    connection: u64,
    /// How many of its frames were answered.
    answered: u64,
    end: End,
    /// Why the server closed it, if it did.
    reason: Option<Reason>,
}

impl LogQueue {
    /// No lines. Takes no memory.
    pub fn new(alloc: Global) -> LogQueue {
        LogQueue {
            waiting: Mutex::new(Waiting {
                entries: Vec::new(alloc),
                reasons: Vec::new(alloc),
                lacks_reasons: false,
                left_out: 0,
                is_closed: false,
                is_written: false,
            }),
            changed: Condvar::new(),
            alloc,
        }
    }

    /// Keeps why the server closes the connection with this number, up to its line.
    pub fn add_reason<R: Wait>(&self, rt: &R, connection: u64, reason: Option<Reason>) {
        let mut waiting = self.waiting.lock(rt);
        waiting.add_reason(connection, reason);
    }

    /// Adds the line of the connection with this number, which has ended with `answered` frames answered. Where as many wait as may, or memory
    /// is short, it is left out and counted.
    pub fn add<R: Wait>(&self, rt: &R, connection: u64, answered: u64, end: End) {
        let mut waiting = self.waiting.lock(rt);
        let reason = waiting.take_reason(connection, end);
        let unanswered = u64::from(reason.is_some_and(|reason| reason.is_of_frame()));
        waiting.add(Entry {
            connection,
            answered: answered.saturating_sub(unanswered),
            end,
            reason,
        });
        drop(waiting);
        self.changed.notify_all();
    }

    /// Says that no line comes any more.
    pub fn close<R: Wait>(&self, rt: &R) {
        let mut waiting = self.waiting.lock(rt);
        waiting.is_closed = true;
        drop(waiting);
        self.changed.notify_all();
    }

    /// Waits until the last line is written, or for two seconds. Says whether it is.
    fn wait_for_end<R: Wait + Clock>(&self, rt: &R) -> bool {
        let limit = Duration::from_secs(LONGEST_WAIT);
        let waiting = self.waiting.lock(rt);
        let (waiting, _) = self
            .changed
            .wait_timeout_while(rt, waiting, limit, |waiting| !waiting.is_written);
        waiting.is_written
    }

    /// Writes the lines as they come, up to the last one. A line that can't be written is lost.
    pub fn write_all<R: Wait, W: Write + Drop>(&self, rt: &R, mut writer: W) {
        for _ in rt.forever() {
            let waited = self.take(rt);
            write_lines(&waited, &mut writer);
            if waited.is_closed {
                break;
            }
        }
        let mut waiting = self.waiting.lock(rt);
        waiting.is_written = true;
        drop(waiting);
        self.changed.notify_all();
    }

    /// Waits for lines, and takes all that wait.
    fn take<R: Wait>(&self, rt: &R) -> Waiting {
        let waiting = self.waiting.lock(rt);
        let mut waiting = self
            .changed
            .wait_while(rt, waiting, |waiting| waiting.is_empty());
        Waiting {
            entries: mem::replace(&mut waiting.entries, Vec::new(self.alloc)),
            reasons: Vec::new(self.alloc),
            lacks_reasons: false,
            left_out: mem::replace(&mut waiting.left_out, 0),
            is_closed: waiting.is_closed,
            is_written: false,
        }
    }
}

impl Waiting {
    /// Adds a line, or counts it.
    fn add(&mut self, entry: Entry) {
        let fits = self.left_out == 0 && self.entries.len() < MOST_LINES;
        if !fits || self.entries.push(entry).is_err() {
            self.left_out = self.left_out.saturating_add(1);
        }
    }

    /// Keeps a reason, in place of an earlier one of its connection. Where it isn't known, or memory is short, this is kept in mind.
    fn add_reason(&mut self, connection: u64, reason: Option<Reason>) {
        let Some(reason) = reason else {
            self.lacks_reasons = true;
            return;
        };
        if let Some(place) = self.place_of(connection) {
            self.reasons[place] = (connection, reason);
            return;
        }
        if self.reasons.push((connection, reason)).is_err() {
            self.lacks_reasons = true;
        }
    }

    /// Where the reason of a connection stands, if it does.
    fn place_of(&self, connection: u64) -> Option<usize>
        ensures { IfSome result (λ place. place < vec_len self.now.reasons) }
    {
        for place in 0..self.reasons.len() {
            if self.reasons[place].0 == connection {
                return Some(place);
            }
        }
        None
    }

    /// Why the server closed the connection, if it did. Where it closed it for none of the reasons that it knew, the size of a frame was refused.
    fn take_reason(&mut self, connection: u64, end: End) -> Option<Reason> {
        match self.place_of(connection) {
            Some(place) => Some(self.reasons.swap_remove(place).1),
            None if end == End::Closed && !self.lacks_reasons => Some(Reason::Size),
            None => None,
        }
    }

    /// Whether there is nothing to write, and more may come.
    fn is_empty(&self) -> bool {
        self.entries.is_empty() && self.left_out == 0 && !self.is_closed
    }
}

/// Writes lines, and how many were left out behind them.
fn write_lines<W: Write>(waited: &Waiting, writer: &mut W) {
    for entry in &waited.entries {
        let _ = writeln!(writer, "{entry}");
    }
    match waited.left_out {
        0 => {}
        1 => {
            let _ = writeln!(writer, "1 line was left out");
        }
        left_out => {
            let _ = writeln!(writer, "{left_out} lines were left out");
        }
    }
}

impl Display for Entry {
    fn fmt<W: fmt::Write>(&self, f: &mut Formatter<W>) -> fmt::Result {
        write!(f, "connection {} closed: ", self.connection)?;
        match self.reason {
            Some(reason) => reason.fmt(f)?,
            None => f.write_str(words_of(self.end))?,
        }
        let frames = if self.answered == 1 {
            "frame"
        } else {
            "frames"
        };
        write!(f, ", {} {frames} answered", self.answered)
    }
}

/// Why a line ended, in words.
fn words_of(end: End) -> &'static str {
    match end {
        End::Finished => "finished",
        End::CutShort => "cut short",
        End::Closed => "closed by the server",
        End::ReadFault => "read fault",
        End::WriteFault => "write fault",
        End::NoMemory => "out of memory",
    }
}
