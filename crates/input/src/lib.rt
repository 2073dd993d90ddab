// What a program is given: bytes until their end, or why a read failed, which `io::read_full` does not tell apart; and its arguments.
#![tactic(auto)]

ghost use Rattle.std.specs.Prelude.{◌≤◌, length, MatchResult};

use std::env::{Env, FillError};
use std::io::{Error, Read};

// What a read that failed had got before, in the room that it was lent, and why it failed.
#[derive(Clone, Copy)]
pub struct Failed {
    pub bytes: usize,
    pub why: Error,
}

// Reads to the end, or until the room is full, and answers what was read.
pub fn read<'a, R: Read>(reader: &mut R, room: &'a mut [u8]) -> Result<&'a [u8], Failed>
    ensures { MatchResult result (λ bytes. length bytes.now ≤ length room.old) (λ failed. failed.bytes ≤ length room.old) }
{
    let mut count = 0;
    while count < room.len() {
        match reader.read(&mut room[count..]) {
            Ok(0) => break,
            Ok(more) => count += more,
            Err(why) => return Err(Failed { bytes: count, why }),
        }
    }
    Ok(&room[..count])
}

// Argument i, or nothing where there is none and where the room does not hold it.
pub fn argument<'a>(rt: &impl Env, i: usize, room: &'a mut [u8]) -> &'a [u8]
    ensures { length result.now ≤ length room.old }
{
    let count = rt.arg(i, room).unwrap_or(0);
    &room[..count]
}

// How many arguments the program was started with, its own name among them.
pub fn argument_count(rt: &impl Env) -> usize {
    for i in 0..usize::MAX {
        if !is_argument(rt, i) {
            return i;
        }
    }
    usize::MAX
}

fn is_argument(rt: &impl Env, i: usize) -> bool {
    !matches!(rt.arg(i, &mut [0u8; 1]), Err(FillError::NotPresent))
}
