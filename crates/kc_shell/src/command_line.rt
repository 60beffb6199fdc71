//! The command line of a program.

use crate::status::Status;
use kc_text::Words;
use std::env;
use std::io::ErrorKind;
use std::rt::Env;

/// Returns the words of the command line without the program's name.
///
/// Fails with `Usage` only if one of them isn't text, and with `Memory` only if memory runs out.
pub fn words_of<R: Env + AllocGlobal>(rt: &R) -> Result<Words, Status> {
    match env::args(rt) {
        Ok(args) => Words::from_args(rt.alloc(), args).map_err(|_| Status::Memory),
        Err(e) => match e.kind() {
            ErrorKind::OutOfMemory => Err(Status::Memory),
            _ => Err(Status::Usage),
        },
    }
}
