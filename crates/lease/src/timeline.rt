//! When each version was published, and which leases that allows.
ghost use Rattle.std.specs.Prelude.{◌≡◌, ◌+◌, ◌≤◌, ◌<◌, ◌↔◌, IsTrue, IsOk, IsSome, IfSome, IfOk, IfErr, OnOk, OnErr, Ok, Err};
ghost use Rattle.collections.specs.Refusal.{IsFirst};
ghost use Rattle.lease.specs.Timeline.{IsValid, IsLength, IsHonest, IsUsable, WasNewest, opened, after_publication, newest, last_publication, earliest, granted_at, max_moment};
ghost use Rattle.lease.specs.Restored.{line_of};
ghost use Rattle.lease.specs.Refusals.{rank, Condition, Serves};
ghost use Rattle.lease.specs.declared.fault.LeaseFault.TheVariants.{MomentTooLarge};

use crate::fault::{LeaseFault, TimelineFault, TooEarly};
use crate::lease::Lease;
use crate::restore::is_timeline;
use std::alloc::{AllocError, Global};
use std::marker::Model;

/// The greatest moment.
pub const MAX_MOMENT: u64 = 1 << 62;

/// The greatest lease length.
pub const MAX_LENGTH: u64 = 1 << 32;

/// When each schema version was published. Version 1 is published at moment 0, and each other one
/// at least the lease length after the one before. So every lease on a version has ended before the
/// next version but one comes, and at most two versions are in use at once, as in "Online,
/// Asynchronous Schema Change in F1".
#[derive(Drop)]
pub struct Timeline {
    /// For how long a lease is granted.
    lease_length: u64,
    /// The moment of each version's publication, that of version 1 first.
    published: Vec<u64>,
}

impl Model for Timeline {
    ghost use Rattle.std.specs.Prelude.{reverse};
    ghost use Rattle.lease.specs.Timeline.{Timeline as Line, IsValid};

    ghost Value = { Line };

    ghost view = { λ t. record { length = t.lease_length; published = reverse t.published.items } };

    ghost invariant = { λ t. IsValid (record { length = t.lease_length; published = reverse t.published.items }) };
}

impl Clone for Timeline {
    ghost is_clone = { λ line copy. copy ≡ line };

    fn clone(&self) -> Result<Timeline, AllocError> {
        Ok(Timeline {
            lease_length: self.lease_length,
            published: self.published.clone()?,
        })
    }
}

impl Timeline {
    /// A timeline on which version 1 was published at moment 0.
    ///
    /// `length` is for how long a lease is granted, in the unit of the moments. Refused with
    /// `BadLength` if it is not from 1 to 2^32, and else when out of memory alone.
    pub fn new(alloc: Global, length: u64) -> Result<Timeline, TimelineFault>
        ensures opened { IfOk result (λ line. line ≡ opened length) }
        ensures bad_length { (result ≡ Err TimelineFault.BadLength) ↔ (¬ (IsLength length)) }
    {
        if length == 0 || length > MAX_LENGTH {
            return Err(TimelineFault::BadLength);
        }
        let mut published = Vec::new(alloc);
        published.push(0)?;
        Ok(Timeline {
            lease_length: length,
            published,
        })
    }

    /// The timeline of a lease length and the moments at which its versions were published, that of
    /// version 1 first. `None` if and only if there is no such timeline. It takes no memory.
    pub fn restored(length: u64, published: Vec<u64>) -> Option<Timeline>
        ensures value { IfSome result (λ line. line ≡ line_of length published.items) }
        ensures exact { IsSome result ↔ IsValid (line_of length published.items) }
    {
        if !is_timeline(length, published.as_slice()) {
            return None;
        }
        Some(Timeline {
            lease_length: length,
            published,
        })
    }

    /// For how long a lease is granted.
    pub fn length(&self) -> u64
        ensures value { result ≡ self.now.length }
        ensures valid { IsValid self.now }
    {
        self.lease_length
    }

    /// The number of the newest version.
    pub fn newest(&self) -> u64
        ensures value { result ≡ newest self.now }
        ensures valid { IsValid self.now }
    {
        self.published.len() as u64
    }

    /// The moment at which the newest version was published.
    pub fn last_publication(&self) -> u64
        ensures { result ≡ last_publication self.now }
    {
        self.published[self.published.len() - 1]
    }

    /// The moment of each version's publication, that of version 1 first.
    pub fn published(&self) -> &[u64]
        ensures { line_of self.now.length result.now ≡ self.now }
    {
        self.published.as_slice()
    }

    /// The first moment at which a version may be published.
    pub fn earliest(&self) -> u64
        ensures { result ≡ earliest self.now }
    {
        self.last_publication() + self.length()
    }

    /// A lease on the newest version, from `moment` on and for the lease length.
    ///
    /// `moment` is not below the last publication. Refused with `MomentTooLarge` alone, if it is
    /// above 2^62.
    pub fn grant(&self, moment: u64) -> Result<Lease, LeaseFault>
        requires { last_publication self.now ≤ moment }
        ensures granted { moment ≤ max_moment → result ≡ Ok (granted_at self.now moment) }
        ensures refused { max_moment < moment → result ≡ Err MomentTooLarge }
        ensures serves { IfOk result (λ lease. Serves self.now lease moment) }
    {
        if moment > MAX_MOMENT {
            return Err(LeaseFault::MomentTooLarge);
        }
        Ok(Lease {
            version: self.newest(),
            granted: moment,
            until: moment + self.length(),
        })
    }

    /// Whether a lease serves at `moment`, which is not below the last publication.
    ///
    /// Refused in this order: `MomentTooLarge` if the moment is above 2^62; `BadLease` if no lease
    /// such as this one could have been granted up to the moment; `LeaseEnded` if the moment is not
    /// below the lease's end.
    pub fn standing(&self, lease: &Lease, moment: u64) -> Result<(), LeaseFault>
        requires { last_publication self.now ≤ moment }
        ensures serves { IsOk result ↔ Serves self.now lease.now moment }
        ensures refused { IfErr result (λ fault. IsFirst rank (Condition self.now lease.now moment) fault) }
    {
        if moment > MAX_MOMENT {
            return Err(LeaseFault::MomentTooLarge);
        }
        if !self.is_honest(lease, moment) {
            return Err(LeaseFault::BadLease);
        }
        if moment >= lease.until {
            return Err(LeaseFault::LeaseEnded {
                until: lease.until,
                now: moment,
            });
        }
        Ok(())
    }

    /// Whether some lease on a version may be in force at `moment`, which is not below the last
    /// publication. `version` is any number.
    pub fn usable(&self, version: u64, moment: u64) -> bool
        requires { last_publication self.now ≤ moment }
        ensures { IsTrue result ↔ IsUsable self.now version moment }
    {
        let newest = self.newest();
        version == newest || (version > 0 && version == newest - 1 && moment < self.earliest())
    }

    /// Whether a version may be published at `moment`. Refused if the newest one has not stood for
    /// the lease length then.
    pub fn may_publish(&self, moment: u64) -> Result<(), TooEarly>
        ensures ok { IsOk result ↔ (earliest self.now ≤ moment) }
        ensures too_early { IfErr result (λ early. early.earliest ≡ earliest self.now) }
    {
        let earliest = self.earliest();
        if moment < earliest {
            return Err(TooEarly { earliest });
        }
        Ok(())
    }

    /// Publishes a version at `moment`, which is at most 2^62 and at which one may be published,
    /// and gives its number. Refused only when out of memory, and then the timeline is unchanged.
    pub fn publish(&mut self, moment: u64) -> Result<u64, AllocError>
        requires in_turn { earliest self.old ≤ moment }
        requires moment { moment ≤ max_moment }
        ensures ok { OnOk result (self.new ≡ after_publication self.old moment) }
        ensures number { IfOk result (λ version. version ≡ newest self.new) }
        ensures err { OnErr result (self.new ≡ self.old) }
    {
        self.published.push(moment)?;
        Ok(self.newest())
    }

    fn is_honest(&self, lease: &Lease, now: u64) -> bool
        ensures { IsTrue result ↔ IsHonest self.now now lease.now }
    {
        lease.granted <= lease.until
            && lease.until - lease.granted == self.length()
            && self.was_newest(lease.version, lease.granted, now)
    }

    // Whether the version stood as the newest at a moment up to now.
    fn was_newest(&self, version: u64, moment: u64, now: u64) -> bool
        ensures { IsTrue result ↔ WasNewest self.now.published version moment now }
    {
        let published = self.published.as_slice();
        if version == 0 || version > published.len() as u64 {
            return false;
        }
        let next = version as usize;
        let until = if next < published.len() {
            published[next]
        } else {
            now
        };
        published[next - 1] <= moment && moment <= until
    }
}
