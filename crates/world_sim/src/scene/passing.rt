//! Time and topics.
ghost use Rattle.world_sim.specs.Acts.{Clock, Passes, Sees};
ghost use Rattle.world_sim.specs.Invariant.{Keeps};
ghost use Rattle.world_sim.specs.Scene.{scene_view};
ghost use Rattle.world_sim.specs.Passing.{Shows};

use super::{Scene, cut_after};
use crate::shown::Shown;
use coord_node::{Image, Moment};

impl Scene {
    /// The clock is set. Takes no memory.
    pub(crate) fn set_clock(&mut self, moment: Moment) -> Shown
        ensures { Shows (scene_view self.old) (Clock moment) result (scene_view self.new) }
    {
        self.clock = moment;
        Shown::Done
    }

    /// The clock is set, and every group meets the moment. Takes no memory.
    pub(crate) fn pass(&mut self, moment: Moment) -> Shown
        requires { Keeps (scene_view self.old) }
        ensures { Shows (scene_view self.old) (Passes moment) result (scene_view self.new) }
    {
        let members = self.node.tick(moment);
        self.clock = moment;
        cut_after(&mut self.commits, &self.node, members);
        Shown::Removed { members }
    }

    /// The coordinator sees an image of the topics, and takes back nothing that is granted. Takes no memory.
    pub(crate) fn see(&mut self, image: Image) -> Shown
        requires { Keeps (scene_view self.old) }
        ensures { Shows (scene_view self.old) (Sees image) result (scene_view self.new) }
    {
        self.node.set_image(image);
        Shown::Done
    }
}
