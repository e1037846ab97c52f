//! Lines of source files: `line`, or `file:line`.
ghost use Rattle.std.specs.Prelude.{◌≡◌, ◌≤◌, true, take, drop, length};
ghost use Rattle.std.specs.List.{list_all};
ghost use Rattle.spv_cmd.specs.Places.{IsPlace, is_no_colon, EndsInColon};
ghost use Rattle.spv_cmd.specs.Answers.{Reads};

use crate::arguments::WRONG_ARGUMENTS;
use crate::numbers::number;
use spv_base::{Bytes, CmdRefusal, Fail};
use std::alloc::Global;

/// The place behind the last colon, or the first place where there is none.
fn behind_colon(text: &[u8]) -> usize
    ensures within { result ≤ length text.now }
    ensures colon { EndsInColon (take result text.now) }
    ensures last { list_all is_no_colon (drop result text.now) ≡ true }
{
    let mut place = text.len();
    while place > 0 && text[place - 1] != b':' {
        place -= 1;
    }
    place
}

/// The file and the line that a text is.
pub fn place(alloc: Global, text: &[u8]) -> Result<(Option<Bytes>, u32), Fail<CmdRefusal>>
    ensures { Reads (λ place. IsPlace place text.now) result }
{
    let (front, digits) = text.split_at(behind_colon(text));
    match number(digits) {
        None => Err(WRONG_ARGUMENTS),
        Some(line) => match front.split_last() {
            None => Ok((None, line)),
            Some((_, file)) => {
                if file.is_empty() {
                    return Err(WRONG_ARGUMENTS);
                }
                Ok((Some(Bytes::from_slice(alloc, file)?), line))
            }
        },
    }
}
