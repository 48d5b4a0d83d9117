//! The kernels over eight words at a time against their word-by-word definitions.

ghost use Rattle.std.specs.Prelude.{◌≡◌, ◌+◌, ◌<◌, ◌^◌, ℕ, IsTrue, length, slice_index_or};

use lane_words::{
    add_into, and_not_into, any_and, count_ones, equal32, equal64, is_within, or_into,
};
use std::alloc::{AllocError, Global};
use std::process::Abort;
use std::test::Fail;

/// The largest number of words that is tried.
const LENGTHS: [usize; 14] = [0, 1, 7, 8, 9, 15, 16, 17, 31, 32, 33, 63, 64, 65];

/// The bits that are tried in the last word.
const LAST: [u64; 4] = [0, 1, 1 << 63, u64::MAX];

/// Words that all differ, with a clear lowest bit.
fn words(alloc: Global, len: usize) -> Result<Vec<u64>, AllocError> {
    let mut words = Vec::with_capacity(alloc, len)?;
    for i in 0..len as u64 {
        words.push(i.wrapping_mul(0x9e37_79b9_7f4a_7c15) & !1)?;
    }
    Ok(words)
}

/// These words with other bits in the last one.
fn with_last(alloc: Global, words: &[u64], last: u64) -> Result<Vec<u64>, AllocError> {
    let mut changed = words.to_vec(alloc)?;
    if let Some(word) = changed.last_mut() {
        *word ^= last;
    }
    Ok(changed)
}

// The checks are in functions that return a boolean: each assertion is proved together with the
// drops of everything the test owns.

/// Whether the calls that change nothing return what their definitions say word by word.
fn are_answered_alike(a: &[u64], b: &[u64]) -> bool
    requires { length a.now ≡ length b.now }
{
    let (mut same, mut meet, mut within) = (true, false, true);
    for i in 0..a.len() {
        same &= a[i] == b[i];
        meet |= a[i] & b[i] != 0;
        within &= a[i] & !b[i] == 0;
    }
    equal64(a, b) == same && any_and(a, b) == meet && is_within(a, b) == within
}

/// Whether each word is that of `b` without the bits of that of `a`.
fn are_cleared(words: &[u64], a: &[u64], b: &[u64]) -> bool {
    if words.len() != a.len() || a.len() != b.len() {
        return false;
    }
    for i in 0..words.len() {
        if words[i] != b[i] & !a[i] {
            return false;
        }
    }
    true
}

/// Whether each word is that of `b` with the bits of that of `a`.
fn are_bits_set(words: &[u64], a: &[u64], b: &[u64]) -> bool {
    if words.len() != a.len() || a.len() != b.len() {
        return false;
    }
    for i in 0..words.len() {
        if words[i] != b[i] | a[i] {
            return false;
        }
    }
    true
}

/// Whether the calls that change words make each word what they should.
fn are_changed_alike(alloc: Global, a: &[u64], b: &[u64]) -> Result<bool, AllocError>
    requires { length a.now ≡ length b.now }
{
    let (mut cleared, mut concatenated) = (b.to_vec(alloc)?, b.to_vec(alloc)?);
    and_not_into(&mut cleared, a);
    or_into(&mut concatenated, a);
    Ok(are_cleared(&cleared, a, b) && are_bits_set(&concatenated, a, b))
}

/// Whether all calls on two lists of the same length, which differ by these bits of the last word,
/// agree with their definitions.
fn are_alike(alloc: Global, a: &[u64], last: u64) -> Result<bool, AllocError> {
    let b = with_last(alloc, a, last)?;
    Ok(
        a.len() == b.len()
            && are_answered_alike(a, &b)
            && equal64(a, &b) == (last == 0 || a.is_empty())
            && are_changed_alike(alloc, a, &b)?,
    )
}

#[test]
fn each_kernel_equals_its_definition(rt: HostRuntime) -> Result<(), Fail> {
    for len in LENGTHS {
        let a = words(rt.alloc(), len)?;
        for last in LAST {
            assert_eq!(rt; are_alike(rt.alloc(), &a, last), Ok(true), "{len}");
        }
    }
    Ok(())
}

#[test]
fn equal32_equals_its_definition(rt: HostRuntime) -> Result<(), Fail> {
    for len in LENGTHS {
        let a = vec![in rt.alloc(); 0x9e37_79b9; len]?;
        for last in [0, 1, 1 << 31, u32::MAX] {
            let mut b = a.to_vec(rt.alloc())?;
            if let Some(word) = b.last_mut() {
                *word ^= last;
            }
            assert!(rt; a.len() == b.len());
            let same = equal32(&a, &b);
            assert_eq!(rt; same, a == b, "{len}");
            assert_eq!(rt; same, last == 0 || len == 0, "{len}");
        }
    }
    Ok(())
}

/// Whether no pair of numbers overflows when added. Both lists have the same length.
fn is_fit(a: &[u64], b: &[u64]) -> bool
    requires { length a.now ≡ length b.now }
    ensures { IsTrue result
        → (i : ℕ) → slice_index_or a.now i 0 + slice_index_or b.now i 0 < 2 ^ 64 }
{
    for i in 0..a.len() {
        if a[i].checked_add(b[i]).is_none() {
            return false;
        }
    }
    true
}

/// Whether each number is the sum of the two at its index.
fn are_sums(sums: &[u64], a: &[u64], b: &[u64]) -> bool {
    if sums.len() != a.len() || a.len() != b.len() {
        return false;
    }
    for i in 0..sums.len() {
        if a[i].checked_add(b[i]) != Some(sums[i]) {
            return false;
        }
    }
    true
}

/// Sums compared with those of each pair.
fn check_sums(rt: &impl Abort, alloc: Global, a: &[u64], b: &[u64]) -> Result<(), AllocError>
    requires len { length a.now ≡ length b.now }
    requires sums { (i : ℕ) → slice_index_or a.now i 0 + slice_index_or b.now i 0 < 2 ^ 64 }
{
    let mut sums = a.to_vec(alloc)?;
    add_into(&mut sums, b);
    assert!(rt; are_sums(&sums, a, b));
    Ok(())
}

#[test]
fn add_into_equals_its_definition(rt: HostRuntime) -> Result<(), Fail> {
    for len in LENGTHS {
        let mut a = words(rt.alloc(), len)?;
        for word in &mut a {
            *word >>= 1;
        }
        for last in [0, 1, u64::MAX >> 1] {
            let b = with_last(rt.alloc(), &a, last)?;
            assert!(rt; a.len() == b.len() && is_fit(&a, &b));
            check_sums(&rt, rt.alloc(), &a, &b)?;
        }
    }
    Ok(())
}

#[test]
fn sums_of_the_last_alone(rt: HostRuntime) -> Result<(), Fail> {
    for len in LENGTHS {
        let mut sums = vec![in rt.alloc(); 0; len]?;
        let one = with_last(rt.alloc(), &sums, u64::MAX)?;
        assert!(rt; sums.len() == one.len() && is_fit(&sums, &one));
        add_into(&mut sums, &one);
        assert!(rt; sums == one, "{len}");
    }
    Ok(())
}

/// Whether a list in which only the last word has a bit, if it has a word, differs from one of the
/// same length without bits.
fn kernels_agree(one: &[u64], none: &[u64], some: bool) -> bool
    requires { length one.now ≡ length none.now }
{
    any_and(one, one) == some
        && !any_and(one, none)
        && is_within(one, none) != some
        && is_within(none, one)
        && equal64(one, none) != some
}

#[test]
fn the_last_word_alone_differs(rt: HostRuntime) -> Result<(), Fail> {
    for len in LENGTHS {
        let none = vec![in rt.alloc(); 0; len]?;
        let one = with_last(rt.alloc(), &none, 1)?;
        assert!(rt;
            one.len() == none.len() && kernels_agree(&one, &none, len > 0),
            "{len}"
        );
        assert!(rt;
            one.len() <= 65 && count_ones(&one) == u64::from(len > 0),
            "{len}"
        );
    }
    Ok(())
}

#[test]
fn bits_are_counted(rt: HostRuntime) -> Result<(), Fail> {
    assert_eq!(rt; count_ones(&[u64::MAX; 65]), 65 * 64);
    assert_eq!(rt; count_ones(&[5, 0, 1 << 63]), 3);
    Ok(())
}
