//! The counter under one seat and under two threads.
ghost use Rattle.std.specs.Prelude.{◌≡◌};

use crate::table::mark;
use claims::{ClaimFault, ClaimSeat, Claims, Drawing, Opened};
use std::alloc::Global;
use std::marker::Brand;
use std::sync::Wait;
use std::thread::{Threads, join};

// What one seat draws of two numbers, and the number that would have come next.
fn alone<T: Drawing>(alloc: Global, opened: Opened) -> Result<[Option<usize>; 4], ClaimFault>
    requires { (opened.table.shared.table_id ≡ T.table) × (opened.total ≡ T.total) × (opened.seats ≡ T.seats) }
{
    let (claims, mut seats) = Claims::<T>::new(alloc, opened)?;
    let Some(mut seat) = seats.pop() else {
        return Err(ClaimFault::BadCount);
    };
    let first = claims.claim(&mut seat);
    let second = claims.claim(&mut seat);
    let third = claims.claim(&mut seat);
    let fourth = claims.claim(&mut seat);
    if third != fourth || seats.push(seat).is_err() {
        return Err(ClaimFault::Memory);
    }
    let next = claims.finish(seats) as usize;
    Ok([first, second, third, Some(next)])
}

fn drawn_once(alloc: Global) -> Result<[Option<usize>; 4], ClaimFault> {
    let opened = Opened::new(alloc, 2, 1)?;
    alone::<Brand>(alloc, opened)
}

// The same, asked once more if memory was short.
fn drawn(alloc: Global) -> Result<[Option<usize>; 4], ClaimFault> {
    match drawn_once(alloc) {
        Err(ClaimFault::Memory) => drawn_once(alloc),
        reported => reported,
    }
}

#[test]
fn under_refusal_one_seat_draws_in_turn(rt: HostRuntime) {
    assert!(rt; mark(&rt));
    assert!(rt; drawn(rt.alloc()) == Ok([Some(0), Some(1), None, Some(3)]));
}

// How many numbers this seat draws in 1,000 turns.
fn drain<T: Drawing>(claims: &Claims<T>, mut seat: ClaimSeat<T>) -> (ClaimSeat<T>, u64) {
    let mut count = 0u64;
    for _ in 0..1000 {
        if claims.claim(&mut seat).is_some() {
            count = count.wrapping_add(1);
        }
    }
    (seat, count)
}

// How many numbers two threads draw, and the number that would have come next.
fn two<T: Drawing + Send + Sync, R: Threads + Wait + Sync>(
    rt: &R,
    alloc: Global,
    opened: Opened,
) -> Result<(u64, u64), ClaimFault>
    requires { (opened.table.shared.table_id ≡ T.table) × (opened.total ≡ T.total) × (opened.seats ≡ T.seats) }
{
    let (claims, mut seats) = Claims::<T>::new(alloc, opened)?;
    let second = seats.pop();
    let first = seats.pop();
    let (Some(first), Some(second)) = (first, second) else {
        return Err(ClaimFault::BadCount);
    };
    let shared = &claims;
    let (a, b) = join(
        rt,
        move || drain(shared, first),
        move || drain(shared, second),
    );
    if seats.push(a.0).is_err() || seats.push(b.0).is_err() {
        return Err(ClaimFault::Memory);
    }
    Ok((a.1.wrapping_add(b.1), claims.finish(seats)))
}

#[test]
fn two_seats_draw_all(rt: HostRuntime) {
    let Ok(opened) = Opened::new(rt.alloc(), 700, 2) else {
        panic!(rt; "no counter");
    };
    let drawn = two::<Brand, _>(&rt, rt.alloc(), opened);
    assert!(rt; drawn == Ok((700, 702)));
}
