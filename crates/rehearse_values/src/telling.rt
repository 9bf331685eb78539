//! What a call answered, written.
use rehearse_shared::{RehearsalFault, tell, tell_shown};
use std::alloc::Global;
use std::cmp::Ordering;
use std::fmt::Display;

/// One text or the other.
pub fn tell_whether(
    out: &mut Vec<u8>,
    holds: bool,
    text: &str,
    other: &str,
) -> Result<(), RehearsalFault> {
    tell(out, if holds { text } else { other })
}

/// The number that stood there, if one did.
pub fn tell_before<S: Display + Drop>(
    alloc: Global,
    before: Option<S>,
    out: &mut Vec<u8>,
) -> Result<(), RehearsalFault> {
    match before {
        Some(number) => {
            tell(out, "was")?;
            tell_shown(alloc, number, out)
        }
        None => tell(out, "none"),
    }
}

/// The place that was found, if one was.
pub fn tell_place(
    alloc: Global,
    place: Option<usize>,
    out: &mut Vec<u8>,
) -> Result<(), RehearsalFault> {
    match place {
        Some(at) => {
            tell(out, "at")?;
            tell_shown(alloc, at, out)
        }
        None => tell(out, "none"),
    }
}

/// How two values compare.
pub fn tell_order(out: &mut Vec<u8>, order: Ordering) -> Result<(), RehearsalFault> {
    match order {
        Ordering::Less => tell(out, "less"),
        Ordering::Equal => tell(out, "equal"),
        Ordering::Greater => tell(out, "greater"),
    }
}
