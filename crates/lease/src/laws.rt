//! Laws of leases.
ghost use Rattle.std.specs.Prelude.{ℕ, ◌≤◌, ◌↔◌};
ghost use Rattle.lease.specs.Timeline.{Timeline as Line, IsValid, IsUsable, IsNewestOrBefore, IsLastTwo, last_publication};

/// A version is usable exactly when it is the newest, or the one before and the newest has not
/// stood for the lease length yet.
pub fn usable_when()
    ensures { (line : Line) (version now : ℕ) → IsValid line → last_publication line ≤ now → IsUsable line version now ↔ IsNewestOrBefore line version now }
{}

/// Every usable version is one of the last two.
pub fn two_usable_versions()
    ensures { (line : Line) (version now : ℕ) → IsValid line → last_publication line ≤ now → IsUsable line version now → IsLastTwo line version }
{}
