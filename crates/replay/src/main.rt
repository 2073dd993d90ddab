// Plays the files that its arguments name: for each its name, then 01's listing, each frame's line with the bits of its start time
// and a checksum of its samples. What it must write are the unchanged Rust's answers: streams/README.md says how they were made.
#![tactic(auto)]

use listing::Behind;
use std::fs::File;
use std::io::{Error, ErrorKind, Result};

// Writes a file's name and its listing.
fn list(rt: HostRuntime, name: &[u8], stream: &[u8]) -> Result<()> {
    rt.write_all(name)?;
    rt.write_all(b"\n")?;
    report::whole(rt, stream, readings::plain(), Behind::Marks).finish()
}

// A name that is no text is the name of no file here.
fn open(rt: HostRuntime, name: &[u8]) -> Result<File> {
    let path = std::str::from_utf8(name).map_err(|_| Error::from(ErrorKind::InvalidFilename))?;
    File::open(&rt, path)
}

// A file that cannot be read is told, and the others are played.
fn told(rt: HostRuntime, name: &[u8], why: Error) -> Result<()> {
    scribe::fail(rt, name, Some(why));
    Ok(())
}

// What fails here is standard output.
fn play(rt: HostRuntime, name: &[u8], mut file: File) -> Result<()> {
    let mut room = [0u8; 65537];
    match input::read(&mut file, &mut room) {
        Ok(stream) => list(rt, name, stream),
        Err(failed) => told(rt, name, failed.why),
    }
}

fn replay(rt: HostRuntime, i: usize) -> Result<()> {
    let mut letters = [0u8; 4096];
    let name = input::argument(&rt, i, &mut letters);
    match open(rt, name) {
        Ok(file) => play(rt, name, file),
        Err(why) => told(rt, name, why),
    }
}

fn replay_all(rt: HostRuntime, count: usize) -> Result<()> {
    for i in 1..count {
        replay(rt, i)?;
    }
    Ok(())
}

fn main(rt: HostRuntime) {
    let count = input::argument_count(&rt);
    if count <= 1 {
        let _ = eprintln!(rt; "usage: ./run replay FILE ..");
    } else if let Err(why) = replay_all(rt, count) {
        scribe::fail(rt, b"standard output", Some(why));
    }
}
