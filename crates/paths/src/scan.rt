// The rule of names and paths, and what is told of a path by its bytes.
ghost use Rattle.std.specs.Prelude.{◌≡◌, ◌≢◌, ◌+◌, ◌<◌, ◌≤◌, [], ◌∷◌, length, take, slice_index_or};
ghost use Rattle.paths.specs.Names.{split, join, plain, reserved, good_name, fault_in, fault, Checked};
ghost use Rattle.paths.specs.Order.{weight, by_weight, goes_on};

use crate::PathFault;
use crate::parts::front_len;
use std::cmp::Ordering;

// No byte is 0 or `/`.
fn is_plain(n: &[u8]) -> bool
    ensures { result ≡ plain n.now }
{
    n.iter().all(|b| *b != 0 && *b != b'/')
}

// Names that directories and layer files keep for themselves.
fn is_reserved(n: &[u8]) -> bool
    ensures { result ≡ reserved n.now }
{
    matches!(n, b"." | b"..") || n.starts_with(b".wh.")
}

pub(crate) fn good_name(n: &[u8]) -> bool
    ensures { result ≡ good_name n.now }
{
    (1..=40).contains(&n.len()) && is_plain(n) && !is_reserved(n)
}

// Judges one name that stands behind `count` others.
pub(crate) fn check_name(count: usize, name: &[u8]) -> Result<(), PathFault>
    ensures { Checked (fault_in count (name.now ∷ [])) result }
{
    if count >= 8 {
        Err(PathFault::TooDeep)
    } else if good_name(name) {
        Ok(())
    } else {
        Err(PathFault::BadName(count as u8))
    }
}

// Judges a text as a path.
pub(crate) fn check(bytes: &[u8]) -> Result<(), PathFault>
    ensures { Checked (fault bytes.now) result }
{
    if bytes.len() > 120 {
        return Err(PathFault::TooLong);
    }
    if bytes.is_empty() {
        return Ok(());
    }
    for (count, name) in bytes.split(|b| *b == b'/').enumerate() {
        check_name(count, name)?;
    }
    Ok(())
}

// What a byte counts in path order: `/` ends a name, so it comes before every byte of one.
fn weight_of(b: &u8) -> u8
    ensures { result ≡ weight b.now }
{
    if *b == b'/' { 0 } else { *b }
}

// How many bytes two texts begin with that are the same: all of one, or the next two differ.
fn shared_len(a: &[u8], b: &[u8]) -> usize
    ensures same { take result a.now ≡ take result b.now }
    ensures in_first { result ≤ length a.now }
    ensures in_second { result ≤ length b.now }
    ensures most { result < length a.now → result < length b.now → slice_index_or a.now result 0 ≢ slice_index_or b.now result 0 }
{
    a.iter()
        .zip(b)
        .position(|(x, y)| x != y)
        .unwrap_or(a.len().min(b.len()))
}

// The order of two texts, with `/` read as 0. Most of two paths is the same, so the bytes that they share are passed over first,
// with one test for each.
pub(crate) fn compare_texts(a: &[u8], b: &[u8]) -> Ordering
    ensures { result ≡ by_weight a.now b.now }
{
    let shared = shared_len(a, b);
    let first = a[shared..].iter().map(weight_of);
    first.cmp(b[shared..].iter().map(weight_of))
}

// Whether a name ends before this text: there is no more, or a `/`.
fn name_ends(rest: &[u8]) -> bool
    ensures { result ≡ goes_on [] rest.now }
{
    matches!(rest, [] | [b'/', ..])
}

// Whether `b` is `a`, or goes on with a `/`.
pub(crate) fn goes_on(a: &[u8], b: &[u8]) -> bool
    ensures { result ≡ goes_on a.now b.now }
{
    b.strip_prefix(a).is_some_and(name_ends)
}

// How many names a text has.
pub(crate) fn count_names(s: &[u8]) -> usize
    ensures { result ≡ length (split s.now) }
{
    if s.is_empty() {
        return 0;
    }
    s.iter().filter(|b| **b == b'/').count() + 1
}

// The length of the first `k` names, with the `/` between them.
pub(crate) fn prefix_end(s: &[u8], k: usize) -> usize
    ensures value { result ≡ length (join (take k (split s.now))) }
    ensures within { result ≤ length s.now }
{
    let Some(passed) = k.checked_sub(1) else {
        return 0;
    };
    s.iter()
        .enumerate()
        .filter(|(_, b)| **b == b'/')
        .nth(passed)
        .map_or(s.len(), |(i, _)| i)
}

// The length of the first `k + 1` names, where the first `k` end at `end`: read on from there, and not from the beginning.
pub(crate) fn next_end(s: &[u8], k: usize, end: usize) -> usize
    requires { end ≡ length (join (take k (split s.now))) }
    ensures { result ≡ length (join (take (k + 1) (split s.now))) }
{
    if end >= s.len() {
        return end;
    }
    let start = if k == 0 { 0 } else { end + 1 };
    start + front_len(&s[start..], b'/')
}
