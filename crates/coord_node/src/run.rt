//! Lists of events.
ghost use Rattle.std.specs.Prelude.{◌≡◌, ◌<◌, [], length, OnOk, OnErr};
ghost use Rattle.coord_node.specs.Events.{Runs};
ghost use Rattle.coord_node.specs.Nodes.{coordinator_of};

use crate::event::NodeEvent;
use crate::node::Node;
use std::alloc::AllocError;
use std::collections::VecDeque;

impl Node {
    /// Takes the events from the front, and appends the replies to the frames in their order. Where memory is short,
    /// the events that have no answer yet are left, at least one, and the first of them in front.
    pub fn run(
        &mut self,
        events: &mut VecDeque<NodeEvent>,
        out: &mut Vec<u8>,
    ) -> Result<(), AllocError>
        ensures run { Runs (coordinator_of self.old) events.old.items (coordinator_of self.new) events.new.items out.old.items out.new.items }
        ensures all { OnOk result (events.new.items ≡ []) }
        ensures left { OnErr result (0 < length events.new.items) }
    {
        while let Some(event) = events.front() {
            match event {
                NodeEvent::Frame {
                    body,
                    stamp,
                    moment,
                } => {
                    self.answer(body.as_slice(), *stamp, *moment, out)?;
                    let _ = events.pop_front();
                }
                NodeEvent::Tick { moment } => {
                    self.tick(*moment);
                    let _ = events.pop_front();
                }
                NodeEvent::Image { .. } => match events.pop_front() {
                    Some(NodeEvent::Image { image }) => self.set_image(image),
                    Some(NodeEvent::Frame { .. } | NodeEvent::Tick { .. }) | None => unreachable!(),
                },
            }
        }
        Ok(())
    }
}
