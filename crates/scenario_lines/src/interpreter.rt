//! What the lines of `coord reply` do, each as one method.
ghost use Rattle.std.specs.Prelude.{◌≡◌, ◌≢◌, [], ◌∷◌, ◌++◌, map, codes, IfErr, IfOk, OnOk, OnErr};
ghost use Rattle.coord_node.specs.Coordinator.{Done};
ghost use Rattle.coord_node.specs.Nodes.{coordinator_of};
ghost use Rattle.scenario_text.specs.Lines.{fed};
ghost use Rattle.scenario_lines.specs.Printing.{line_of};
ghost use Rattle.scenario_lines.specs.Requests.{text_of};

use crate::stamps::Stamps;
use crate::{reasons, refusals};
use coord_node::{Answered, Node};
use group_types::{Moment, Stamp};
use scenario_text::fault::LineFault;
use scenario_text::output::Output;
use scenario_text::page::Page;
use scenario_text::topics::image_of;
use scenario_text::{frame, words};
use std::alloc::{AllocError, Global};
use std::collections::hash_map::RandomState;

/// What is printed for a frame that is not answered.
const CLOSE: &str = "close";

/// What a line did.
#[derive(Drop)]
pub enum Did {
    /// It set something, or removed members.
    Nothing,
    /// Its request was answered.
    Answered,
    /// Its request, which had this stamp, was not answered.
    Closed(Stamp),
}

/// A node, and what the lines so far have set.
#[derive(Drop)]
pub struct Interpreter {
    alloc: Global,
    node: Node,
    now: Moment,
    stamps: Stamps,
}

impl Interpreter {
    ghost use Rattle.std.specs.Prelude.{◌+◌, ◌-◌, ◌^◌, min, None, IfErr, IsErr};
    ghost use Rattle.hex.specs.Hex.{decode_of};
    ghost use Rattle.scenario_lines.specs.Stamps.{stamp_of};
    ghost use Rattle.scenario_lines.specs.Requests.{PrintsAnswer};
    ghost use Rattle.scenario_lines.specs.Printing.{AnswersBytes};
    ghost use Rattle.scenario_lines.specs.Commands.{BeginsRequest, DoesCommand, DoesReplyLine, IsCommand, IsReplyLine, new_interpreter};
    ghost use Rattle.scenario_text.specs.Runs.{Prints};

    /// The salt of the node's ids.
    const SALT: u64 = 0;

    /// A node with no groups and no topics, at the moment 0. Takes no memory.
    pub fn new(alloc: Global, hasher: RandomState) -> Interpreter
        ensures { result ≡ new_interpreter alloc }
    {
        Interpreter {
            alloc,
            node: Node::new(alloc, Self::SALT, hasher),
            now: Moment::of_millis(0),
            stamps: Stamps::new(),
        }
    }

    /// Does a line that is no request: all of its words.
    pub fn words_line(&mut self, line: &[u8], output: &mut Output) -> Result<Did, LineFault>
        ensures printed { OnOk result (Prints (DoesReplyLine self.old line.now self.new) output.old output.new) }
        ensures refused { result ≡ Err LineFault.BadLine → ¬ BeginsRequest line.now → ¬ IsReplyLine line.now }
        ensures err { OnErr result (output.new ≡ output.old) }
    {
        let words = words::words_of(self.alloc, line)?;
        let Some((name, arguments)) = words.split_first() else {
            return Err(LineFault::BadLine);
        };
        self.command(name, arguments, output)
    }

    /// Does the command of this name, which is no request.
    fn command(
        &mut self,
        name: &str,
        arguments: &[&str],
        output: &mut Output,
    ) -> Result<Did, LineFault>
        ensures printed { OnOk result (Prints (DoesCommand (name.now ∷ map (λ word. word.now) arguments.now) self.old self.new) output.old output.new) }
        ensures refused { result ≡ Err LineFault.BadLine → name.now ≢ codes "req"
            → ¬ IsCommand (name.now ∷ map (λ word. word.now) arguments.now) }
        ensures err { OnErr result (output.new ≡ output.old) }
    {
        match name {
            "image" => self.image(arguments),
            "now" => self.now(arguments),
            "stamp" => self.stamp(arguments),
            "tick" => self.tick(arguments, output),
            _ => Err(LineFault::BadLine),
        }
    }

    /// `image [NAME UUID COUNT]...` sets the image.
    fn image(&mut self, arguments: &[&str]) -> Result<Did, LineFault>
        ensures done { OnOk result (DoesCommand (codes "image" ∷ map (λ word. word.now) arguments.now) self.old self.new []) }
        ensures refused { result ≡ Err LineFault.BadLine → ¬ IsCommand (codes "image" ∷ map (λ word. word.now) arguments.now) }
    {
        let image = image_of(self.alloc, arguments)?;
        self.node.set_image(image);
        Ok(Did::Nothing)
    }

    /// `now MS` sets the moment.
    fn now(&mut self, arguments: &[&str]) -> Result<Did, LineFault>
        ensures done { OnOk result (DoesCommand (codes "now" ∷ map (λ word. word.now) arguments.now) self.old self.new []) }
        ensures refused { OnErr result (¬ IsCommand (codes "now" ∷ map (λ word. word.now) arguments.now)) }
        ensures fault { IfErr result (λ fault. fault ≡ LineFault.BadLine) }
    {
        let [millis] = arguments else {
            return Err(LineFault::BadLine);
        };
        let millis = words::number_of(millis).ok_or(LineFault::BadLine)?;
        self.now = Moment::of_millis(millis);
        Ok(Did::Nothing)
    }

    /// `stamp C F` gives the next request its stamp.
    fn stamp(&mut self, arguments: &[&str]) -> Result<Did, LineFault>
        ensures done { OnOk result (DoesCommand (codes "stamp" ∷ map (λ word. word.now) arguments.now) self.old self.new []) }
        ensures refused { OnErr result (¬ IsCommand (codes "stamp" ∷ map (λ word. word.now) arguments.now)) }
        ensures fault { IfErr result (λ fault. fault ≡ LineFault.BadLine) }
    {
        let [connection, frame] = arguments else {
            return Err(LineFault::BadLine);
        };
        let connection = words::number_of(connection).ok_or(LineFault::BadLine)?;
        let frame = words::number_of(frame).ok_or(LineFault::BadLine)?;
        self.stamps.give(Stamp { connection, frame });
        Ok(Did::Nothing)
    }

    /// `tick` removes the members whose deadline has come at the moment, and prints how many. Where memory is short for the text,
    /// they are removed.
    fn tick(&mut self, arguments: &[&str], output: &mut Output) -> Result<Did, LineFault>
        ensures printed { OnOk result (Prints (DoesCommand (codes "tick" ∷ map (λ word. word.now) arguments.now) self.old self.new) output.old output.new) }
        ensures refused { result ≡ Err LineFault.BadLine → ¬ IsCommand (codes "tick" ∷ map (λ word. word.now) arguments.now) }
        ensures err { OnErr result (output.new ≡ output.old) }
    {
        if !arguments.is_empty() {
            return Err(LineFault::BadLine);
        }
        let removed = self.node.tick(self.now);
        print_removed(self.alloc, removed, output)?;
        Ok(Did::Nothing)
    }

    /// `req HEX` prints the frame of the reply, or `close`. The bytes of the request and of the reply take the room of former ones.
    pub fn request(
        &mut self,
        digits: &[u8],
        frame: &mut Vec<u8>,
        reply: &mut Vec<u8>,
        output: &mut Output,
    ) -> Result<Did, LineFault>
        ensures printed { OnOk result (PrintsAnswer (coordinator_of self.old.node) digits.now
            (stamp_of self.old.stamps.given self.new.stamps.requests) self.old.now (coordinator_of self.new.node) output.old output.new) }
        ensures counted { OnOk result (self.new.stamps
            ≡ record { given = None; requests = min (self.old.stamps.requests + 1) (2 ^ 64 - 1) }) }
        ensures err { OnErr result (output.new ≡ output.old) }
        ensures refused { result ≡ Err LineFault.BadLine → IsErr (decode_of digits.now) }
        ensures kept { self.new ≡ record self.old { node = self.new.node; stamps = self.new.stamps } }
    {
        words::decode_into(digits, frame)?;
        let stamp = self.stamps.next_stamp();
        reply.clear();
        let answered = self.answer(frame.as_slice(), stamp, reply)?;
        print(answered, reply.as_slice(), stamp, output)
    }

    /// Why a line came to nothing that did this, if it did: a request by its reply.
    pub fn why(&self, line: &[u8], did: &Did, reply: &[u8]) -> Result<Option<String>, AllocError> {
        match did {
            Did::Nothing => Ok(None),
            Did::Answered => refusals::of_reply(self.alloc, &self.node, line, reply),
            Did::Closed(stamp) => reasons::of_closed(self.alloc, &self.node, line, *stamp),
        }
    }

    /// Why a line is none of `coord reply`.
    pub fn why_bad(&self, line: &[u8]) -> Result<String, AllocError> {
        reasons::of_bad_reply_line(self.alloc, line)
    }

    /// Answers the bytes of a frame, and appends the reply. Other bytes than a frame close.
    fn answer(
        &mut self,
        frame: &[u8],
        stamp: Stamp,
        reply: &mut Vec<u8>,
    ) -> Result<Answered, AllocError>
        ensures answered { IfOk result (λ kind. AnswersBytes (coordinator_of self.old.node) frame.now stamp self.old.now kind (coordinator_of self.new.node)
            reply.old.items reply.new.items) }
        ensures kept { self.new ≡ record self.old { node = self.new.node } }
    {
        match frame::body_of(frame) {
            Some(body) => self.node.answer(body, stamp, self.now, reply),
            None => Ok(Answered::Closes),
        }
    }
}

/// Prints what became of a frame with a stamp: the reply in hex, or `close`.
fn print(
    answered: Answered,
    reply: &[u8],
    stamp: Stamp,
    output: &mut Output,
) -> Result<Did, LineFault>
    ensures ok { OnOk result (output.new ≡ output.old ++ line_of answered reply.now ++ 10 ∷ []) }
    ensures err { OnErr result (output.new ≡ output.old) }
    ensures fault { IfErr result (λ fault. fault ≡ LineFault.NoMemory) }
{
    match answered {
        Answered::Replied => {
            output.hex_line(reply)?;
            Ok(Did::Answered)
        }
        Answered::Closes => {
            output.line(CLOSE)?;
            Ok(Did::Closed(stamp))
        }
    }
}

/// Prints how many members a tick removed.
fn print_removed(alloc: Global, removed: usize, output: &mut Output) -> Result<(), AllocError>
    ensures ok { OnOk result (output.new ≡ output.old ++ fed (text_of (Done removed))) }
    ensures err { OnErr result (output.new ≡ output.old) }
{
    let mut page = Page::new(alloc);
    page.number("removed", removed)?;
    output.text(page.as_str())
}
