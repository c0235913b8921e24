//! A law of streams, proved where nothing runs.
ghost use Rattle.link_futures.specs.Framing.{FramingIsOne};

use flex_wire::laws::int32_begins_no_other;

/// Bytes begin with one list of whole frames only. So it doesn't matter in what pieces a stream comes.
pub fn framing_is_one()
    ensures { FramingIsOne }
{
    int32_begins_no_other();
}
