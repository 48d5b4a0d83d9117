//! Holders and spans that are the same.

ghost use Rattle.std.specs.Prelude.{◌≡◌};
ghost use Rattle.timeline.specs.Holders.{are_same_spans, is_read, is_same_holder, is_same_span};

use crate::parts::{Holder, Span};

/// Whether a partition of this holder is read.
pub fn is_read(holder: Holder) -> bool
    ensures { result ≡ is_read holder }
{
    match holder {
        Holder::Reading(_) => true,
        _ => false,
    }
}

/// Whether two holders are the same.
pub fn is_same_holder(a: Holder, b: Holder) -> bool
    ensures { result ≡ is_same_holder a b }
{
    match (a, b) {
        (Holder::Nobody, Holder::Nobody) => true,
        (Holder::Granted(m), Holder::Granted(n)) => m == n,
        (Holder::Reading(m), Holder::Reading(n)) => m == n,
        _ => false,
    }
}

fn is_same_span(a: &Span, b: &Span) -> bool
    ensures { result ≡ is_same_span a.now b.now }
{
    a.from == b.from && is_same_holder(a.holder, b.holder)
}

/// Whether two partitions have the same course.
pub fn are_same_spans(a: &[Span], b: &[Span]) -> bool
    ensures { result ≡ are_same_spans a.now b.now }
{
    let mut a = a;
    let mut b = b;
    while let [first, a_rest @ ..] = a {
        let [second, b_rest @ ..] = b else {
            return false;
        };
        if !is_same_span(first, second) {
            return false;
        }
        a = a_rest;
        b = b_rest;
    }
    b.is_empty()
}
