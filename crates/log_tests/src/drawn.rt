//! Random files, from a linear congruential generator.

ghost use Rattle.std.specs.Prelude.{◌<◌};

use lane_words::Memory;
use std::alloc::Global;

/// Pseudo-random numbers.
#[derive(Drop)]
pub struct Random {
    /// The last number.
    pub state: u64,
}

impl Random {
    /// A number below a bound.
    pub fn below(&mut self, bound: u64) -> u64
        requires { 0 < bound }
        ensures { result < bound }
    {
        self.state = self
            .state
            .wrapping_mul(6_364_136_223_846_793_005)
            .wrapping_add(1_442_695_040_888_963_407);
        (self.state >> 33) % bound
    }
}

/// The pieces of text that arbitrary files are made of.
fn scrap(n: u64) -> &'static str {
    match n {
        0 => "a",
        1 => "bc",
        2 | 3 => ",",
        4 | 5 => "\"",
        6 | 7 => "\n",
        8 => "\r\n",
        9 => "\r",
        10 => "\u{feff}",
        11 => "\"d,\n\"",
        12 => "\"\"",
        _ => "e,f\n",
    }
}

/// The pieces of text that two-column files are made of. The last ones are invalid.
fn row(n: u64) -> &'static str {
    match n {
        0..10 => "a,b\n",
        10..20 => "\"c\nd\",\"e\"\r\n",
        20..30 => "\"f\"\"\n\"\"g\",h\r",
        30..40 => ",\n",
        40..50 => "\n\u{feff},i\"j\n",
        50..60 => "\r\n\r\n\"\",\"\n\n\n\"\n",
        60 => "k\n",
        _ => "l,m,n\n",
    }
}

/// The pieces of text that files with a key and a topic are made of. The last ones are invalid.
fn topic_row(n: u64) -> &'static str {
    match n {
        0..10 => "k,a\n",
        10..20 => "\"c\nd\",\"b\"\r\n",
        20..30 => "\"f\"\"\n\"\"g\",a\r",
        30..40 => ",b\n",
        40..50 => "\n\u{feff},a\n",
        50..60 => "\r\n\r\n\"\",\"b\"\n",
        60 => "k,c\n",
        61 => "k\n",
        _ => "l,a,n\n",
    }
}

/// An arbitrary file.
pub fn scraps(alloc: Global, random: &mut Random) -> Result<Vec<u8>, Memory> {
    let mut file = Vec::new(alloc);
    for _ in 0..random.below(40) {
        file.extend_from_slice(scrap(random.below(15)).as_bytes())?;
    }
    Ok(file)
}

/// A file with two columns.
pub fn rows(alloc: Global, random: &mut Random) -> Result<Vec<u8>, Memory> {
    let mut file = Vec::new(alloc);
    for _ in 0..random.below(40) {
        file.extend_from_slice(row(random.below(62)).as_bytes())?;
    }
    Ok(file)
}

/// A file with a key and a topic.
pub fn topic_rows(alloc: Global, random: &mut Random) -> Result<Vec<u8>, Memory> {
    let mut file = Vec::new(alloc);
    for _ in 0..random.below(40) {
        file.extend_from_slice(topic_row(random.below(63)).as_bytes())?;
    }
    Ok(file)
}
