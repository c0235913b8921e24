//! A desk that owns a node.
ghost use Rattle.std.specs.Prelude.{◌≡◌};

use crate::desk::Desk;
use crate::moments::Moments;
use coord_node::{Answered, Node, Stamp};
use std::alloc::AllocError;

/// A desk that owns a node, and asks for the moment of each frame.
#[derive(Drop)]
pub struct Solo<M> {
    node: Node,
    moments: M,
}

impl<M: Moments> Solo<M> {
    /// The desk of a node.
    pub fn new(node: Node, moments: M) -> Solo<M>
        ensures { (result.node ≡ node) × (result.moments ≡ moments) }
    {
        Solo { node, moments }
    }

    /// The node.
    pub fn node(&self) -> &Node
        ensures { result.now ≡ self.now.node }
    {
        &self.node
    }
}

impl<M: Moments> Desk for Solo<M> {
    ghost use Rattle.link_futures.specs.SoloDesk.{SoloAnswers, SoloLacks};

    ghost answers = { SoloAnswers M.hands };

    ghost lacks = { SoloLacks M.hands };

    fn answer(
        &mut self,
        body: &[u8],
        stamp: Stamp,
        out: &mut Vec<u8>,
    ) -> Result<Answered, AllocError> {
        let now = self.moments.now();
        self.node.answer(body, stamp, now, out)
    }
}
