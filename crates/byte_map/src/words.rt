//! Byte strings compared eight bytes at a time.
ghost use Rattle.std.specs.Prelude.{◌≡◌, ◌≢◌, ◌+◌, ◌≤◌, length, min, drop, take};
ghost use Rattle.std.specs.Ordering.{is_eq, nat_cmp};
ghost use Rattle.byte_map.specs.Order.{bytes_cmp};
ghost use Rattle.byte_map.specs.Numbers.{word};

use std::cmp::Ordering;

/// The eight bytes from a place on as a number, the first one the highest; there are so many.
#[inline(always)]
pub fn word(bytes: &[u8], at: usize) -> u64
    requires { at + 8 ≤ length bytes.now }
    ensures { result ≡ word (drop at bytes.now) }
{
    match bytes.split_at(at).1.split_first_chunk::<8>() {
        Some((word, _)) => u64::from_be_bytes(*word),
        None => 0,
    }
}

/// How these bytes stand to others: by the first byte that differs, a proper prefix first.
#[inline(always)]
pub fn compare(one: &[u8], other: &[u8]) -> Ordering
    ensures { result ≡ bytes_cmp one.now other.now }
{
    let both = lesser(one.len(), other.len());
    if both < 8 {
        return compare_few(one, other);
    }
    let last = both - 8;
    let mut at = 0;
    loop {
        let (x, y) = (word(one, at), word(other, at));
        if x != y {
            return by_number(x, y);
        }
        if at == last {
            return one.len().cmp(&other.len());
        }
        // The last eight bytes may have some that were compared already.
        at = if last - at < 8 { last } else { at + 8 };
    }
}

/// The same, if these are the first two words of the other bytes, with zeros after the last byte.
#[inline(always)]
pub fn compare_by(one: &[u8], other: &[u8], words: (u64, u64)) -> Ordering
    requires first { words.0 ≡ word other.now }
    requires second { words.1 ≡ word (drop 8 other.now) }
    ensures { result ≡ bytes_cmp one.now other.now }
{
    if one.len() < 16 || other.len() < 16 {
        return compare(one, other);
    }
    let (first, second) = (word(one, 0), word(one, 8));
    if first != words.0 {
        return by_number(first, words.0);
    }
    if second != words.1 {
        return by_number(second, words.1);
    }
    compare_from(one, other)
}

// The same, if the first two words are alike.
#[inline(always)]
fn compare_from(one: &[u8], other: &[u8]) -> Ordering
    requires one { 16 ≤ length one.now }
    requires other { 16 ≤ length other.now }
    requires same { take 16 one.now ≡ take 16 other.now }
    ensures { result ≡ bytes_cmp one.now other.now }
{
    let both = lesser(one.len(), other.len());
    if both <= 24 {
        let (x, y) = (word(one, both - 8), word(other, both - 8));
        if x != y {
            return by_number(x, y);
        }
        return one.len().cmp(&other.len());
    }
    compare(one, other)
}

#[inline(never)]
fn compare_few(x: &[u8], y: &[u8]) -> Ordering
    ensures { result ≡ bytes_cmp x.now y.now }
{
    for i in 0..x.len().min(y.len()) {
        if x[i] != y[i] {
            return by_number(x[i] as u64, y[i] as u64);
        }
    }
    x.len().cmp(&y.len())
}

// How unequal numbers stand.
#[inline(always)]
fn by_number(x: u64, y: u64) -> Ordering
    requires { x ≢ y }
    ensures { result ≡ nat_cmp x y }
{
    if x < y {
        Ordering::Less
    } else {
        Ordering::Greater
    }
}

#[inline(always)]
fn lesser(a: usize, b: usize) -> usize
    ensures { result ≡ min a b }
{
    if a < b { a } else { b }
}

/// Whether these bytes are the same as others.
#[inline(always)]
pub fn is_same(one: &[u8], other: &[u8]) -> bool
    ensures { result ≡ is_eq (bytes_cmp one.now other.now) }
{
    one.len() == other.len() && compare(one, other).is_eq()
}
