//! The states of a member, as types.

use std::marker::PhantomData;

/// A state of a member.
pub trait Stage {
    ghost use Rattle.std.specs.Prelude.{Bool};
    ghost use Rattle.member_core.specs.Client.{State};

    /// The state of the client machine.
    ghost state: { State };

    /// Whether the member waits for a reply.
    ghost waits: { Bool };
}

/// A state in which a member doesn't wait for a reply.
pub trait Idle: Stage {
    ghost use Rattle.std.specs.Prelude.{◌≡◌, false};

    ghost is_idle: { Self.Stage.waits ≡ false };
}

/// A state of a member inside its group that doesn't wait for a reply.
pub trait Present: Idle {
    ghost use Rattle.std.specs.Prelude.{◌≡◌};
    ghost use Rattle.member_core.specs.Client as client;
    ghost use Rattle.member_core.specs.Standing.{place_in};

    ghost is_inside: { place_in Self.Stage.state ≡ client.Inside };
}

/// A state of a member inside its group, also while it waits for a reply.
pub trait Commits: Stage {}

/// The member has yet to join.
#[derive(Drop)]
pub struct Outside;

impl Stage for Outside {
    ghost use Rattle.std.specs.Prelude.{false};
    ghost use Rattle.member_core.specs.Client.{IsOutside};

    ghost state = { IsOutside };

    ghost waits = { false };
}

impl Idle for Outside {
    ghost use Rattle.std.specs.Prelude.{refl};

    ghost is_idle = { refl };
}

/// The member is inside its group, and is shown all that it owns.
#[derive(Drop)]
pub struct Steady;

impl Stage for Steady {
    ghost use Rattle.std.specs.Prelude.{false};
    ghost use Rattle.member_core.specs.Client.{IsSteady};

    ghost state = { IsSteady };

    ghost waits = { false };
}

impl Commits for Steady {}

impl Present for Steady {
    ghost use Rattle.std.specs.Prelude.{refl};

    ghost is_inside = { refl };
}

impl Idle for Steady {
    ghost use Rattle.std.specs.Prelude.{refl};

    ghost is_idle = { refl };
}

/// The member is inside its group, and has to release some of what it owns.
#[derive(Drop)]
pub struct Releasing;

impl Stage for Releasing {
    ghost use Rattle.std.specs.Prelude.{false};
    ghost use Rattle.member_core.specs.Client.{IsReleasing};

    ghost state = { IsReleasing };

    ghost waits = { false };
}

impl Commits for Releasing {}

impl Present for Releasing {
    ghost use Rattle.std.specs.Prelude.{refl};

    ghost is_inside = { refl };
}

impl Idle for Releasing {
    ghost use Rattle.std.specs.Prelude.{refl};

    ghost is_idle = { refl };
}

/// The member is gone for good.
#[derive(Drop)]
pub struct Gone;

impl Stage for Gone {
    ghost use Rattle.std.specs.Prelude.{false};
    ghost use Rattle.member_core.specs.Client.{IsGone};

    ghost state = { IsGone };

    ghost waits = { false };
}

/// The member waits for the reply to a request that it sent in the state `S`.
#[derive(Drop)]
pub struct Sent<S> {
    from: PhantomData<S>,
}

impl<S: Idle> Stage for Sent<S> {
    ghost use Rattle.std.specs.Prelude.{true};

    ghost state = { S.state };

    ghost waits = { true };
}

impl<S: Present> Commits for Sent<S> {}
