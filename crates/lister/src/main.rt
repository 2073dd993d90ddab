// Lists what is in a clip on standard input, at most 65,536 bytes: 01's lister. A word asks for something more, in any order: with `words`
// each line says what it means, with `strict` the clip is read by 02's E3. On standard error it ends with the clip in one line.
#![tactic(auto)]

use listing::Behind;
use readings::Reading;

fn list(rt: HostRuntime, reading: Reading, behind: Behind) {
    let mut room = [0u8; 65537];
    match input::read(&mut rt.stdin(), &mut room) {
        Ok(stream) => tell(rt, stream, reading, behind),
        Err(failed) => scribe::fail(rt, b"standard input", Some(failed.why)),
    }
}

fn tell(rt: HostRuntime, stream: &[u8], reading: Reading, behind: Behind) {
    match report::whole(rt, stream, reading, behind).finish() {
        Ok(()) => {
            let _ = summary::tell(rt, stream, reading).finish();
        }
        Err(why) => scribe::fail(rt, b"standard output", Some(why)),
    }
}

// What a word asks for: a choice, as readings has them, or words behind each line.
#[derive(Clone, Copy)]
enum Asks {
    Choice(u32),
    Words,
}

// None where the word is not known; one that is too long is none.
fn asked_by(rt: HostRuntime, i: usize) -> Option<Asks> {
    let mut room = [0u8; 8];
    match input::argument(&rt, i, &mut room) {
        b"strict" => Some(Asks::Choice(1)),
        b"words" => Some(Asks::Words),
        _ => None,
    }
}

// What all the words ask for, or none where one of them is not known: a word that was there before changes nothing.
fn asked(rt: HostRuntime, count: usize) -> Option<(u32, Behind)> {
    let mut choices = 0;
    let mut behind = Behind::Nothing;
    for i in 1..count {
        match asked_by(rt, i)? {
            Asks::Choice(choice) => choices |= choice,
            Asks::Words => behind = Behind::Words,
        }
    }
    Some((choices, behind))
}

fn main(rt: HostRuntime) {
    match asked(rt, input::argument_count(&rt)) {
        Some((choices, behind)) => list(rt, readings::reading_by(choices), behind),
        None => {
            let _ = eprintln!(rt; "usage: ./run lister [words] [strict] < CLIP.mp2");
        }
    }
}
