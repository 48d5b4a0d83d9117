//! The same calls one word at a time, for the words that do not fill a vector.

ghost use Rattle.std.specs.Prelude.{◌≡◌, ◌↔◌, ◌+◌, ◌<◌, ◌^◌, ℕ, IsTrue, length, not, bit_and, bit_or, slice_index_or};
ghost use Rattle.std.specs.Simd.Lanes.{zip2};
ghost use Rattle.lane_words.specs.Words.{and_not, any_set};

/// Clears in `a` the bits that are set in `b`, a slice of the same length.
pub fn and_not_into(a: &mut [u64], b: &[u64])
    requires { length a.old ≡ length b.now }
    ensures { a.new ≡ zip2 and_not a.old b.now }
{
    for i in 0..a.len() {
        a[i] &= !b[i];
    }
}

/// Sets in `a` the bits that are set in `b`, a slice of the same length.
pub fn or_into(a: &mut [u64], b: &[u64])
    requires { length a.old ≡ length b.now }
    ensures { a.new ≡ zip2 bit_or a.old b.now }
{
    for i in 0..a.len() {
        a[i] |= b[i];
    }
}

/// Whether any bit is set in both slices, which have the same length.
pub fn any_and(a: &[u64], b: &[u64]) -> bool
    requires { length a.now ≡ length b.now }
    ensures { result ≡ any_set (zip2 bit_and a.now b.now) }
{
    let mut found = 0;
    for i in 0..a.len() {
        found |= a[i] & b[i];
    }
    found != 0
}

/// Whether every bit of `a` is also set in `b`, a slice of the same length.
pub fn is_within(a: &[u64], b: &[u64]) -> bool
    requires { length a.now ≡ length b.now }
    ensures { result ≡ not (any_set (zip2 and_not a.now b.now)) }
{
    let mut found = 0;
    for i in 0..a.len() {
        found |= a[i] & !b[i];
    }
    found == 0
}

/// Whether two slices of the same length are equal.
pub fn equal64(a: &[u64], b: &[u64]) -> bool
    requires { length a.now ≡ length b.now }
    ensures { IsTrue result ↔ (a.now ≡ b.now) }
{
    let mut found = 0;
    for i in 0..a.len() {
        found |= a[i] ^ b[i];
    }
    found == 0
}

/// Whether two slices of the same length are equal.
pub fn equal32(a: &[u32], b: &[u32]) -> bool
    requires { length a.now ≡ length b.now }
    ensures { IsTrue result ↔ (a.now ≡ b.now) }
{
    let mut found = 0;
    for i in 0..a.len() {
        found |= a[i] ^ b[i];
    }
    found == 0
}

/// Adds the numbers of `b` to those of `a`, a slice of the same length. No sum may overflow.
pub fn add_into(a: &mut [u64], b: &[u64])
    requires len { length a.old ≡ length b.now }
    requires sums { (i : ℕ) → slice_index_or a.old i 0 + slice_index_or b.now i 0 < 2 ^ 64 }
    ensures { a.new ≡ zip2 (λ x y. x + y) a.old b.now }
{
    for i in 0..a.len() {
        a[i] += b[i];
    }
}
