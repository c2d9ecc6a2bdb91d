//! How a page writes numbers: in digits of 32, the lowest first, in characters that mean nothing to HTML.

use crate::view::small_place;
use std::alloc::AllocError;

/// Appends the number. It is refused for memory alone.
pub(crate) fn append_number(text: &mut String, number: u64) -> Result<(), AllocError> {
    let mut rest = number;
    while rest >= 32 {
        let digit = (95 + rest % 32) as u8;
        text.push(digit as char)?;
        rest /= 32;
    }
    let digit = (63 + rest) as u8;
    text.push(digit as char)
}

/// Appends the numbers. It is refused for memory alone.
pub(crate) fn append_numbers(text: &mut String, numbers: &[u64]) -> Result<(), AllocError> {
    for number in numbers {
        append_number(text, *number)?;
    }
    Ok(())
}

/// The way from the one number to the other: even upwards, odd downwards.
pub(crate) fn step(from: u32, to: u32) -> u64 {
    if to < from {
        2 * u64::from(from - to) - 1
    } else {
        2 * u64::from(to - from)
    }
}

/// How far the one place is behind the other, from 1; 0 stands for none.
pub(crate) fn far(from: usize, to: Option<usize>) -> u64 {
    match to {
        Some(place) => 1 + u64::from(small_place(place.saturating_sub(from))),
        None => 0,
    }
}
