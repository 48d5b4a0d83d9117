//! Kernels over slices of words, eight words at a time.

ghost use Rattle.std.specs.Prelude.{◌≡◌, ◌↔◌, ◌+◌, ◌*◌, ◌<◌, ◌^◌, ℕ, IsTrue, length, not, bit_and, bit_or, slice_index_or, sum_by, count_ones};
ghost use Rattle.std.specs.Simd.Lanes.{zip2};
ghost use Rattle.lane_words.specs.Words.{and_not, any_set};

mod plain;

use std::simd::prelude::*;

/// How many words are processed at a time.
const LANES: usize = 8;

/// How many 32-bit words `equal32` compares at a time: enough to fill eight vector registers, so
/// that no comparison waits for the one before it.
const WIDE: usize = 32;

/// Clears in `a` the bits that are set in `b`, a slice of the same length.
pub fn and_not_into(a: &mut [u64], b: &[u64])
    requires { length a.old ≡ length b.now }
    ensures { a.new ≡ zip2 and_not a.old b.now }
{
    let mut at = 0;
    while at + LANES <= a.len() {
        let left = u64x8::from_slice(&a[at..]);
        let right = u64x8::from_slice(&b[at..]);
        (left & !right).copy_to_slice(&mut a[at..]);
        at += LANES;
    }
    plain::and_not_into(&mut a[at..], &b[at..]);
}

/// Sets in `a` the bits that are set in `b`, a slice of the same length.
pub fn or_into(a: &mut [u64], b: &[u64])
    requires { length a.old ≡ length b.now }
    ensures { a.new ≡ zip2 bit_or a.old b.now }
{
    let mut at = 0;
    while at + LANES <= a.len() {
        let left = u64x8::from_slice(&a[at..]);
        let right = u64x8::from_slice(&b[at..]);
        (left | right).copy_to_slice(&mut a[at..]);
        at += LANES;
    }
    plain::or_into(&mut a[at..], &b[at..]);
}

/// Whether any bit is set in both slices, which have the same length. It reads every word: a search
/// that stops early is not vectorized.
pub fn any_and(a: &[u64], b: &[u64]) -> bool
    requires { length a.now ≡ length b.now }
    ensures { result ≡ any_set (zip2 bit_and a.now b.now) }
{
    let mut found = u64x8::splat(0);
    let mut at = 0;
    while at + LANES <= a.len() {
        found |= u64x8::from_slice(&a[at..]) & u64x8::from_slice(&b[at..]);
        at += LANES;
    }
    found.reduce_or() != 0 || plain::any_and(&a[at..], &b[at..])
}

/// Whether every bit of `a` is also set in `b`, a slice of the same length.
pub fn is_within(a: &[u64], b: &[u64]) -> bool
    requires { length a.now ≡ length b.now }
    ensures { result ≡ not (any_set (zip2 and_not a.now b.now)) }
{
    let mut found = u64x8::splat(0);
    let mut at = 0;
    while at + LANES <= a.len() {
        found |= u64x8::from_slice(&a[at..]) & !u64x8::from_slice(&b[at..]);
        at += LANES;
    }
    found.reduce_or() == 0 && plain::is_within(&a[at..], &b[at..])
}

/// Whether two slices of the same length are equal.
pub fn equal64(a: &[u64], b: &[u64]) -> bool
    requires { length a.now ≡ length b.now }
    ensures { IsTrue result ↔ (a.now ≡ b.now) }
{
    let mut found = u64x8::splat(0);
    let mut at = 0;
    while at + LANES <= a.len() {
        found |= u64x8::from_slice(&a[at..]) ^ u64x8::from_slice(&b[at..]);
        at += LANES;
    }
    found.reduce_or() == 0 && plain::equal64(&a[at..], &b[at..])
}

/// Whether two slices of the same length are equal: 32 words at a time, and then eight at a time.
pub fn equal32(a: &[u32], b: &[u32]) -> bool
    requires { length a.now ≡ length b.now }
    ensures { IsTrue result ↔ (a.now ≡ b.now) }
{
    let mut found = u32x32::splat(0);
    let mut at = 0;
    while at + WIDE <= a.len() {
        found |= u32x32::from_slice(&a[at..]) ^ u32x32::from_slice(&b[at..]);
        at += WIDE;
    }
    found.reduce_or() == 0 && equal32_by_eight(&a[at..], &b[at..])
}

/// Whether two slices of the same length are equal.
fn equal32_by_eight(a: &[u32], b: &[u32]) -> bool
    requires { length a.now ≡ length b.now }
    ensures { IsTrue result ↔ (a.now ≡ b.now) }
{
    let mut found = u32x8::splat(0);
    let mut at = 0;
    while at + LANES <= a.len() {
        found |= u32x8::from_slice(&a[at..]) ^ u32x8::from_slice(&b[at..]);
        at += LANES;
    }
    found.reduce_or() == 0 && plain::equal32(&a[at..], &b[at..])
}

/// Adds the numbers of `b` to those of `a`, a slice of the same length. No sum may overflow.
pub fn add_into(a: &mut [u64], b: &[u64])
    requires len { length a.old ≡ length b.now }
    requires sums { (i : ℕ) → slice_index_or a.old i 0 + slice_index_or b.now i 0 < 2 ^ 64 }
    ensures { a.new ≡ zip2 (λ x y. x + y) a.old b.now }
{
    let mut at = 0;
    while at + LANES <= a.len() {
        let left = u64x8::from_slice(&a[at..]);
        let right = u64x8::from_slice(&b[at..]);
        (left + right).copy_to_slice(&mut a[at..]);
        at += LANES;
    }
    plain::add_into(&mut a[at..], &b[at..]);
}

/// How many bits are set in all words, of which there are fewer than 2^58. It goes word by word:
/// the processor has an instruction to count the bits of one word, and none for a vector of words.
pub fn count_ones(a: &[u64]) -> u64
    requires { 64 * length a.now < 2 ^ 64 }
    ensures { result ≡ sum_by count_ones a.now }
{
    let mut count = 0;
    for word in a {
        count += u64::from(word.count_ones());
    }
    count
}
