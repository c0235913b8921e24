//! The lines of `coord reply`.
ghost use Rattle.std.specs.Prelude.{◌≡◌};
ghost use Rattle.scenario_lines.specs.Commands.{DoesReplyLine, IsReplyLine, new_interpreter};
ghost use Rattle.scenario_text.specs.Runs.{PrintsNothing};

use crate::interpreter::{Did, Interpreter};
use scenario_text::driver::LineWorker;
use scenario_text::fault::LineFault;
use scenario_text::output::Output;
use std::alloc::{AllocError, Global};
use std::collections::hash_map::RandomState;
use std::marker::Model;

/// An interpreter, and room that is kept from line to line.
#[derive(Drop)]
pub struct Replier {
    interpreter: Interpreter,
    /// The bytes of the last request line.
    frame: Vec<u8>,
    /// The frame of the last reply.
    reply: Vec<u8>,
}

impl Model for Replier {
    ghost use Rattle.scenario_lines.specs.declared.interpreter.Interpreter.{Interpreter};
    ghost use Rattle.scenario_lines.specs.contracts.interpreter.Interpreter.{the_row};

    ghost Value = { Interpreter };

    ghost coded = { the_row.coded };

    ghost view = { λ replier. replier.interpreter };
}

impl Replier {
    /// Before the first line. Takes no memory.
    pub fn new(alloc: Global, hasher: RandomState) -> Replier
        ensures { result ≡ new_interpreter alloc }
    {
        Replier {
            interpreter: Interpreter::new(alloc, hasher),
            frame: Vec::new(alloc),
            reply: Vec::new(alloc),
        }
    }
}

impl LineWorker for Replier {
    ghost does = { DoesReplyLine };

    ghost takes = { λ _. IsReplyLine };

    ghost closes = { PrintsNothing };

    type Did = Did;

    type Notes = ();

    fn line(&mut self, line: &[u8], output: &mut Output) -> Result<Did, LineFault> {
        let Some(digits) = line.strip_prefix(b"req ") else {
            return self.interpreter.words_line(line, output);
        };
        if digits.is_empty() {
            return Err(LineFault::BadLine);
        }
        self.interpreter
            .request(digits, &mut self.frame, &mut self.reply, output)
    }

    /// Nothing stands behind the last line.
    fn end(&mut self, _output: &mut Output) -> Result<(), AllocError> {
        Ok(())
    }

    fn notes(&self) {}

    fn why(&self, _: &mut (), line: &[u8], did: &Did) -> Result<Option<String>, AllocError> {
        self.interpreter.why(line, did, self.reply.as_slice())
    }

    fn why_bad(&self, line: &[u8]) -> Result<String, AllocError> {
        self.interpreter.why_bad(line)
    }
}
