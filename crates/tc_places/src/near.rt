//! Names that differ by a letter or two.

/// The most bytes of a name that is compared with others.
const MOST_COMPARED: usize = 100;

/// The first of the names that is nearest to this one, where one is near.
pub fn nearest<'a>(name: &[u8], names: &[&'a [u8]]) -> Option<&'a [u8]> {
    let mut best = None;
    let mut least = 3;
    for other in names {
        let differing = difference(name, other);
        if differing < least && other.len() <= MOST_COMPARED {
            least = differing;
            best = Some(*other);
        }
    }
    best
}

// How many letters stand between what two names begin and end with alike; 3 where these are more
// than two, or more than what is alike and not two that have changed places.
fn difference(name: &[u8], other: &[u8]) -> usize {
    let longer = name.len().max(other.len());
    if longer > MOST_COMPARED {
        return 3;
    }
    let before = alike_before(name, other);
    let left = name.get(before..).unwrap_or(&[]);
    let right = other.get(before..).unwrap_or(&[]);
    let alike = before.saturating_add(alike_behind(left, right));
    let differing = longer.saturating_sub(alike);
    if differing > alike && !(alike > 0 && begin_swapped(left, right)) {
        return 3;
    }
    differing.min(3)
}

// Whether two names begin with the same two letters, the other way round.
fn begin_swapped(name: &[u8], other: &[u8]) -> bool {
    match (name, other) {
        ([a, b, ..], [c, d, ..]) => *a == *d && *b == *c,
        _ => false,
    }
}

// How many bytes two names begin with alike.
fn alike_before(name: &[u8], other: &[u8]) -> usize {
    let mut count: usize = 0;
    for (byte, its) in name.iter().zip(other.iter()) {
        if *byte != *its {
            break;
        }
        count = count.saturating_add(1);
    }
    count
}

// How many bytes two names end with alike.
fn alike_behind(name: &[u8], other: &[u8]) -> usize {
    let mut count: usize = 0;
    for (byte, its) in name.iter().rev().zip(other.iter().rev()) {
        if *byte != *its {
            break;
        }
        count = count.saturating_add(1);
    }
    count
}
