//! Timelines and leases.
use crate::fixtures::mark;
use lease::{Lease, LeaseFault, MAX_MOMENT, Timeline, TimelineFault, TooEarly};
use std::alloc::Global;

/// The greatest moment, 2^62.
const GREATEST: u64 = 4611686018427387904;

/// The number of the version that is published at a moment, if one may be; none if the moment is
/// too great, or memory is short.
fn published_once(line: &mut Timeline, moment: u64) -> Result<Option<u64>, TooEarly> {
    line.may_publish(moment)?;
    if moment > MAX_MOMENT {
        return Ok(None);
    }
    Ok(line.publish(moment).ok())
}

/// The same, once more if there was none and the timeline is as before.
fn published(line: &mut Timeline, moment: u64) -> Result<Option<u64>, TooEarly> {
    let before = (line.newest(), line.last_publication());
    match published_once(line, moment) {
        Ok(None) if (line.newest(), line.last_publication()) == before => {
            published_once(line, moment)
        }
        reported => reported,
    }
}

/// A timeline of leases of length 10 without a publication.
fn bare(alloc: Global) -> Result<Timeline, TimelineFault> {
    match Timeline::new(alloc, 10) {
        Err(TimelineFault::Memory) => Timeline::new(alloc, 10),
        reported => reported,
    }
}

/// Such a timeline on which these versions came after version 1.
fn timeline(alloc: Global, moments: &[u64]) -> Option<Timeline> {
    let mut line = bare(alloc).ok()?;
    for moment in moments {
        if !matches!(published(&mut line, *moment), Ok(Some(_))) {
            return None;
        }
    }
    Some(line)
}

/// The length of a timeline, its newest version, the moment at which that came and the earliest one
/// of the next.
type Facts = (u64, u64, u64, u64);

/// The facts of a timeline, and what is granted and then published at a moment.
fn answers(
    alloc: Global,
    moments: &[u64],
    moment: u64,
) -> Option<
    (
        Facts,
        Result<Lease, LeaseFault>,
        Result<Option<u64>, TooEarly>,
    ),
> {
    let mut line = timeline(alloc, moments)?;
    let last = line.last_publication();
    if moment < last {
        return None;
    }
    let facts = (line.length(), line.newest(), last, line.earliest());
    let granted = line.grant(moment);
    Some((facts, granted, published(&mut line, moment)))
}

/// Whether these are the answers, with a lease from the moment on and for 10.
fn are_answers(
    alloc: Global,
    moments: &[u64],
    moment: u64,
    (newest, last, earliest): (u64, u64, u64),
    number: Result<Option<u64>, TooEarly>,
) -> bool {
    let lease = Lease {
        version: newest,
        granted: moment,
        until: moment.saturating_add(10),
    };
    answers(alloc, moments, moment) == Some(((10, newest, last, earliest), Ok(lease), number))
}

const MOMENTS: &[(&[u64], u64, (u64, u64, u64), Result<Option<u64>, TooEarly>)] = &[
    (&[], 9, (1, 0, 10), Err(TooEarly { earliest: 10 })),
    (&[], 10, (1, 0, 10), Ok(Some(2))),
    (&[12], 12, (2, 12, 22), Err(TooEarly { earliest: 22 })),
    (&[12], 21, (2, 12, 22), Err(TooEarly { earliest: 22 })),
    (&[12], 22, (2, 12, 22), Ok(Some(3))),
    (&[10, 20, 30], 41, (4, 30, 40), Ok(Some(5))),
    (&[10], GREATEST, (2, 10, 20), Ok(Some(3))),
];

#[test]
fn under_refusal_versions_come_a_length_apart_and_leases_are_on_the_newest(rt: HostRuntime) {
    assert!(rt; mark(&rt));
    for (moments, moment, facts, number) in MOMENTS {
        assert!(rt;
            are_answers(rt.alloc(), moments, *moment, *facts, *number),
            "{moments:?} at {moment}"
        );
    }
}
