//! The words that the program is given.

use std::alloc::Global;
use std::env::FillError;
use std::rt::Env;
use sz_base::{OutOfMemory, Text};

/// The words after the program's name, as bytes.
pub fn words<R: Env>(env: &R, alloc: Global) -> Result<Vec<Text>, OutOfMemory> {
    let mut words = Vec::new(alloc);
    for place in 1..usize::MAX {
        let Some(word) = word(env, alloc, place)? else {
            break;
        };
        words.push(word)?;
    }
    Ok(words)
}

// The word at a place, counted from the program's name on, or `None` behind the last.
fn word<R: Env>(env: &R, alloc: Global, place: usize) -> Result<Option<Text>, OutOfMemory> {
    let mut size = 256;
    for _ in 0..usize::BITS {
        let mut buffer = vec![in alloc; 0u8; size]?;
        match env.arg(place, buffer.as_mut_slice()) {
            Ok(count) => {
                buffer.truncate(count);
                return Ok(Some(Text::from_vec(buffer)));
            }
            Err(FillError::NotPresent) => return Ok(None),
            Err(FillError::TooLong) => size = size.saturating_mul(2),
        }
    }
    Err(OutOfMemory)
}
