//! A world with the furthest jump of a call's moment.
ghost use Rattle.std.specs.Prelude.{◌≡◌};
ghost use Rattle.typed_calls.specs.Bounded.{is_too_far};

use script_session::world::World;

/// The furthest jump of a world in which no moment is too far.
pub const ANY_JUMP: u64 = u64::MAX;

/// A world, and how far a call's moment may be beyond that of the last entry. Moments never go back,
/// so one call at the moment 2^62 would end every later change.
#[derive(Drop)]
pub struct BoundedWorld {
    /// The world.
    pub world: World,
    /// The furthest jump, in moments; `ANY_JUMP` if none is too far.
    pub furthest: u64,
}

impl BoundedWorld {
    /// Whether a call's moment is further beyond that of the last entry than the world allows.
    /// Before the first entry none is.
    pub fn is_too_far(&self, moment: u64) -> bool
        ensures { result ≡ is_too_far self.now moment }
    {
        self.world.log_len() > 0 && moment.saturating_sub(self.world.moment()) > self.furthest
    }
}
