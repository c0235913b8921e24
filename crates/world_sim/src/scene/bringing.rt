//! Commits that are brought.
ghost use Rattle.world_sim.specs.Acts.{Bring};
ghost use Rattle.world_sim.specs.Acting.{Acted};
ghost use Rattle.world_sim.specs.Invariant.{Keeps};
ghost use Rattle.world_sim.specs.Scene.{scene_view};

use super::{Scene, place_of};
use crate::fault::WorldFault;
use crate::frame::Frame;
use crate::shown::Shown;
use coord_node::{Answered, Stamp};
use kip_msgs::one_request_a_body;

/// The stamp of a commit. None matters to it.
const NO_STAMP: Stamp = Stamp {
    connection: 0,
    frame: 0,
};

impl Scene {
    /// A commit is brought to the coordinator. Its reply isn't kept. Nothing that is granted is taken back.
    pub(crate) fn bring(&mut self, number: usize) -> Result<Shown, WorldFault>
        requires { Keeps (scene_view self.old) }
        ensures { Acted (scene_view self.old) (Bring number) result (scene_view self.new) }
    {
        one_request_a_body();
        let Some(place) = place_of(number, self.commits.as_slice().len()) else {
            return Err(WorldFault::NoSuchMessage);
        };
        let mut out = Vec::new(self.alloc);
        let body = self.commits[place].body();
        let answered = self.node.answer(body, NO_STAMP, self.clock, &mut out)?;
        match answered {
            Answered::Replied => Ok(Shown::Answered {
                reply: Frame::of(out),
            }),
            Answered::Closes => unreachable!(),
        }
    }
}
