// What the programs write of a stream, and the only place that writes it: each piece of a listing, of a summary or of a WAVE file, where it
// comes next.
#![tactic(auto)]

ghost use Rattle.std.specs.Prelude.{◌≡◌, length, MatchResult};
ghost use Rattle.scribe.specs.Page.{IsNext, IsNew, Puts};
ghost use Rattle.scribe.specs.Whole.{descriptor_of, system_number};

use listing::Behind;
use readings::Reading;
use std::io::{Error, Result, Stderr, Stdout, Write};

// A stream's listing, or its summary in one line, in a reading; or its WAVE file, which is of the plain one.
#[derive(Clone, Copy)]
pub enum Whole {
    Lines(Reading, Behind),
    Summary(Reading),
    Wave,
}

// The two streams that are written to; specs/Whole has the system's numbers of them.
#[derive(Clone, Copy)]
enum Descriptor {
    Output,
    Error,
}

impl Whole {
    // The summary is for whoever looks on: it goes to standard error, so that standard output has the listing or the file and nothing else.
    fn descriptor(self) -> Descriptor
        ensures { system_number result ≡ descriptor_of self }
    {
        match self {
            Whole::Lines(_, _) => Descriptor::Output,
            Whole::Summary(_) => Descriptor::Error,
            Whole::Wave => Descriptor::Output,
        }
    }
}

// A text of a stream, how much of it is written, and where it goes. The fields are this crate's alone: a count comes from `new` and `put`, and
// from nowhere else. After a write that failed nothing more is written. A page is plain data and may be copied, as a decoder's state may: no
// type keeps a program from going on with a copy.
#[derive(Clone, Copy)]
pub struct Page<'a> {
    stream: &'a [u8],
    what: Whole,
    output: Stdout,
    error: Stderr,
    bytes: usize,
    failure: Option<Error>,
}

impl<'a> Page<'a> {
    pub fn new(rt: HostRuntime, what: Whole, stream: &'a [u8]) -> Page<'a>
        ensures { IsNew what stream.now result }
    {
        Page {
            stream,
            what,
            output: rt.stdout(),
            error: rt.stderr(),
            bytes: 0,
            failure: None,
        }
    }

    // Nothing can be written of a stream but the piece that comes next.
    pub fn put(&mut self, piece: &[u8])
        requires { IsNext self.old piece.now }
        ensures { Puts self.old piece.now self.new }
    {
        self.bytes += piece.len();
        if self.failure.is_none() {
            self.failure = self.hand_on(piece).err();
        }
    }

    fn hand_on(&self, piece: &[u8]) -> Result<()> {
        match self.what.descriptor() {
            Descriptor::Output => self.output.write_all(piece),
            Descriptor::Error => self.error.write_all(piece),
        }
    }

    // Whether all of it was taken, or what the system said of the first write that failed.
    pub fn finish(self) -> Result<()>
        ensures { MatchResult result (λ _. self.entry.failure ≡ None) (λ why. self.entry.failure ≡ Some why) }
    {
        match self.failure {
            None => Ok(()),
            Some(why) => Err(why),
        }
    }
}

// Writes a line to standard error: what failed, as the caller names it, a colon and the system's words for why.
pub fn fail(rt: HostRuntime, what: &[u8], why: Option<Error>) {
    let error = rt.stderr();
    let _ = error.write_all(what);
    let _ = error.write_all(b": ");
    if let Some(reason) = why {
        let _ = tell_reason(error, reason);
    }
    let _ = error.write_all(b"\n");
}

// The system's words alone: std puts the error's number behind them.
fn tell_reason(to: Stderr, reason: Error) -> Result<()> {
    let mut room = [0u8; 128];
    write!(&mut room[..], "{reason}")?;
    let told = match std::str::from_utf8(&room) {
        Ok(text) => text.trim_end_matches('\0'),
        Err(_) => "",
    };
    let (words, _) = told.split_once(" (os error ").unwrap_or((told, ""));
    to.write_all(words.as_bytes())
}
