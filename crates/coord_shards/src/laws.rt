//! Laws of shards, proved where nothing runs.
ghost use Rattle.coord_shards.specs.Limits.{ConstantsAreTheLimits};
ghost use Rattle.coord_shards.specs.Home.{OneHome};

use kip_msgs::one_request_a_body;

/// The limits of the code are those that the definitions cite.
pub fn constants_are_the_limits()
    ensures { ConstantsAreTheLimits }
{}

/// An event has one home.
pub fn one_home()
    ensures { OneHome }
{
    one_request_a_body();
}
