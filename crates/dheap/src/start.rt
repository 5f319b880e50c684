//! The start of the program: it reads its arguments and serves.
ghost use Rattle.std.specs.Prelude.{◌≡◌, ◌≤◌, OnErr};

use crate::serve::fault::Fault;
use crate::serve::serve;
use std::alloc::{AllocError, Global};
use std::env::{Env, FillError};
use std::io::{Read, Write};

/// Serves by the arguments after the program's own name, and returns the status that the program ends
/// with. Memory allocation that fails before it serves is a lack of memory too.
pub(crate) fn start<V: Env, R: Read, W: Write, E: Write>(
    env: &V,
    alloc: Global,
    input: &mut R,
    output: &mut W,
    errors: &mut E,
) -> u8
    ensures status { result ≤ 4 }
{
    serve_by(words(env, alloc), alloc, input, output, errors)
}

/// Serves by these arguments, or says that there was no memory for them.
fn serve_by<R: Read, W: Write, E: Write>(
    words: Result<Vec<String>, AllocError>,
    alloc: Global,
    input: &mut R,
    output: &mut W,
    errors: &mut E,
) -> u8
    ensures status { result ≤ 4 }
    ensures refused { OnErr words (result ≡ 3) }
{
    match words {
        Ok(words) => serve(alloc, words.as_slice(), input, output, errors),
        Err(AllocError) => Fault::NoMemory.report(errors),
    }
}

/// The arguments after the program's own name. One that isn't UTF-8 or is longer than 256 bytes is an empty
/// word; `std::env::args` would fail as a whole.
fn words<V: Env>(env: &V, alloc: Global) -> Result<Vec<String>, AllocError> {
    let mut words = Vec::new(alloc);
    for place in 1..usize::MAX {
        let mut bytes = vec![in alloc; 0; 256]?;
        match env.arg(place, bytes.as_mut_slice()) {
            Ok(len) => {
                bytes.truncate(len);
                words.push(String::from_utf8(bytes).unwrap_or(String::new(alloc)))?;
            }
            Err(FillError::TooLong) => words.push(String::new(alloc))?,
            Err(FillError::NotPresent) => break,
        }
    }
    Ok(words)
}
