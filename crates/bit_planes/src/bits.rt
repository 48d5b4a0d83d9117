//! Bit sets over slices of words: bit q % 64 of word q / 64 stands for the number q.

ghost use Rattle.std.specs.Prelude.{◌≡◌, ◌<◌, ◌≤◌, ◌+◌, ◌*◌, ◌==◌, ◌&&◌, ◌||◌, ◌↔◌, ℕ, not, nat_lt, length, IsTrue, MatchOption};
ghost use Rattle.bit_planes.specs.Private.Bits.{AreClearFrom, HasBitsBelow, HasLowestBits, IsLowestFrom, bit_of, is_bit};
ghost use Rattle.bit_planes.specs.PartitionSet.{any_below, how_many};

use lane_words::MOST_PARTITIONS;

/// Bits per word.
pub const WORD_BITS: u32 = 64;

/// The number of words that hold the bits of the numbers below `partitions`.
pub fn words_for(partitions: u32) -> usize
    requires { partitions ≤ MOST_PARTITIONS }
    ensures capacity { partitions ≤ 64 * result }
    ensures bound { 64 * result < partitions + 64 }
{
    partitions.div_ceil(WORD_BITS) as usize
}

/// A word with the bits below `n` set; all of them from 64 on.
pub fn bits_below(n: u32) -> u64
    ensures { HasBitsBelow n result }
{
    if n < WORD_BITS {
        (1 << n) - 1
    } else {
        u64::MAX
    }
}

/// The number of set bits in a word.
pub fn count_in(word: u64) -> u32
    ensures { result ≡ how_many 64 (is_bit word) }
{
    word.count_ones()
}

/// The `n` lowest set bits of a word; all of them where it has fewer.
pub fn lowest_bits(word: u64, n: u32) -> u64
    ensures { HasLowestBits n word result }
{
    if n == 0 {
        return 0;
    }
    if count_in(word) <= n {
        return word;
    }
    let mut rest = word;
    for _ in 0..n {
        // Clears the lowest set bit.
        rest &= rest.wrapping_sub(1);
    }
    word & !rest
}

/// Whether bit `q` is set. `q` is within the words.
pub fn is_set(words: &[u64], q: u32) -> bool
    requires { q < 64 * length words.now }
    ensures { result ≡ bit_of words.now q }
{
    words[(q / WORD_BITS) as usize] >> (q % WORD_BITS) & 1 == 1
}

/// Sets bit `q`, which is within the words.
pub fn set(words: &mut [u64], q: u32)
    requires { q < 64 * length words.old }
    ensures bits { (n : ℕ) → bit_of words.new n ≡ (bit_of words.old n || (n == q)) }
    ensures len { length words.new ≡ length words.old }
{
    words[(q / WORD_BITS) as usize] |= 1 << (q % WORD_BITS);
}

/// Clears bit `q`, which is within the words.
pub fn clear(words: &mut [u64], q: u32)
    requires { q < 64 * length words.old }
    ensures bits { (n : ℕ) → bit_of words.new n ≡ (bit_of words.old n && not (n == q)) }
    ensures len { length words.new ≡ length words.old }
{
    words[(q / WORD_BITS) as usize] &= !(1 << (q % WORD_BITS));
}

/// Sets the bits below `n` and clears all others.
pub fn fill_below(words: &mut [u64], n: u32)
    requires { length words.old ≤ 64 }
    ensures bits { (q : ℕ) → q < 64 * length words.old → bit_of words.new q ≡ nat_lt q n }
    ensures len { length words.new ≡ length words.old }
{
    for i in 0..words.len() {
        words[i] = bits_below(n.saturating_sub(i as u32 * WORD_BITS));
    }
}

/// Clears all but the `n` lowest set bits.
pub fn retain_lowest(words: &mut [u64], n: u32)
    ensures bits { (q : ℕ) → bit_of words.new q
        ≡ (bit_of words.old q && nat_lt (how_many q (bit_of words.old)) n) }
    ensures len { length words.new ≡ length words.old }
{
    let mut left = n;
    for i in 0..words.len() {
        // Most words of most sets are zero: skip them without counting.
        if words[i] != 0 {
            let retained = lowest_bits(words[i], left);
            words[i] = retained;
            left = left.saturating_sub(count_in(retained));
        }
    }
}

/// Sets in `a` all bits that are set in `b`, which has the same length.
pub fn or_into(a: &mut [u64], b: &[u64])
    requires { length a.old ≡ length b.now }
    ensures bits { (q : ℕ) → bit_of a.new q ≡ (bit_of a.old q || bit_of b.now q) }
    ensures len { length a.new ≡ length a.old }
{
    lane_words::or_into(a, b);
}

/// Clears in `a` all bits that are set in `b`, which has the same length.
pub fn and_not_into(a: &mut [u64], b: &[u64])
    requires { length a.old ≡ length b.now }
    ensures bits { (q : ℕ) → bit_of a.new q ≡ (bit_of a.old q && not (bit_of b.now q)) }
    ensures len { length a.new ≡ length a.old }
{
    lane_words::and_not_into(a, b);
}

/// Whether some bit is set in both. They have the same length.
pub fn any_and(a: &[u64], b: &[u64]) -> bool
    requires { length a.now ≡ length b.now }
    ensures { result ≡ any_below (64 * length a.now) (λ q. bit_of a.now q && bit_of b.now q) }
{
    lane_words::any_and(a, b)
}

/// Whether each bit that is set in `a` is set in `b`, which has the same length.
pub fn is_within(a: &[u64], b: &[u64]) -> bool
    requires { length a.now ≡ length b.now }
    ensures { result
        ≡ not (any_below (64 * length a.now) (λ q. bit_of a.now q && not (bit_of b.now q))) }
{
    lane_words::is_within(a, b)
}

/// Whether the same bits are set in both. They have the same length.
pub fn are_equal(a: &[u64], b: &[u64]) -> bool
    requires { length a.now ≡ length b.now }
    ensures { IsTrue result ↔ ((q : ℕ) → bit_of a.now q ≡ bit_of b.now q) }
{
    lane_words::equal64(a, b)
}

/// The number of set bits.
pub fn count(words: &[u64]) -> u32
    requires { length words.now ≤ 64 }
    ensures { result ≡ how_many (64 * length words.now) (bit_of words.now) }
{
    lane_words::count_ones(words) as u32
}

/// The lowest set bit at or above `from`, if there is one.
pub fn lowest_from(words: &[u64], from: u32) -> Option<u32>
    requires { length words.now ≤ 64 }
    ensures { MatchOption result (AreClearFrom words.now from) (IsLowestFrom words.now from) }
{
    let index = (from / WORD_BITS) as usize;
    if index >= words.len() {
        return None;
    }
    let rest = words[index] >> (from % WORD_BITS);
    if rest != 0 {
        return Some(from + rest.trailing_zeros());
    }
    for i in index + 1..words.len() {
        if words[i] != 0 {
            return Some(i as u32 * WORD_BITS + words[i].trailing_zeros());
        }
    }
    None
}
