// What a call asks before a frame is decoded: 8, 9, 10, then a header, pending or sought (1 to 6, 13), and its data (7). And what a
// question about the format asks.
#![tactic(auto)]

ghost use Rattle.std.specs.Prelude.{◌≡◌, ◌≤◌, Err};
ghost use Rattle.header.specs.Header.{most_data};
ghost use Rattle.verdict.specs.Verdict.{asked, attempt_of, headed_of, enough_of, at_once_of, ready_of, known_of};

use buffer::LONGEST_STREAM;
use refusal::Refusal;
use state::Audio;
use synthesis::{MEMORY, OUTPUT};

// What a call answers, the state after it, and the bytes that were passed over as a header was sought: 0 where none was sought.
#[derive(Clone, Copy)]
pub struct Answered<T> {
    pub answer: T,
    pub state: Audio,
    pub skipped: usize,
}

// Whether a header is there.
pub type Asked = Answered<Result<(), Refusal>>;

// Refused before anything is read.
fn refused(refusal: Refusal, a: Audio) -> Asked
    ensures { result ≡ asked 0 (Err refusal) a }
{
    Answered {
        answer: Err(refusal),
        state: a,
        skipped: 0,
    }
}

// One header attempt: an accepted header is pending, a refused one moves the position and leaves the rest. 02, E2: from the aligned start
// to the FF of the sync, or to the stream's end, so many bytes were passed over.
pub fn attempt(a: Audio, stream: &[u8]) -> Asked
    ensures { result ≡ attempt_of stream.now a }
{
    let begin = a.reader.at.byte_after();
    let t = header::decode_header(stream, a.reader, a.format);
    let skipped = t.sync.0 - begin.0;
    let reader = t.next;
    match t.header {
        Ok(accepted) => Answered {
            answer: Ok(()),
            state: Audio {
                reader,
                format: accepted.format,
                pending: accepted.size,
                ..a
            },
            skipped,
        },
        Err(refusal) => Answered {
            answer: Err(refusal),
            state: Audio { reader, ..a },
            skipped,
        },
    }
}

// The header that is pending, or else the next.
fn headed(a: Audio, stream: &[u8]) -> Asked
    ensures { result ≡ headed_of stream.now a }
{
    if a.pending == 0 {
        return attempt(a, stream);
    }
    Answered {
        answer: Ok(()),
        state: a,
        skipped: 0,
    }
}

// Whether the pending header's data remain. What was passed over before is handed on.
fn enough(a: Audio, stream: &[u8], skipped: usize) -> Asked
    requires { a.pending ≤ most_data }
    ensures { result ≡ enough_of stream.now skipped a }
{
    let answer = match a.reader.has(stream, 8 * a.pending) {
        Ok(true) => Ok(()),
        Ok(false) => Err(Refusal::CutOff),
        Err(refusal) => Err(refusal),
    };
    Answered {
        answer,
        state: a,
        skipped,
    }
}

// 8, 9 or 10, before anything is read; or none.
fn refused_at_once(a: Audio, stream: &[u8], memory: usize, output: usize) -> Option<Refusal>
    ensures { result ≡ at_once_of stream.now memory output a }
{
    if LONGEST_STREAM < stream.len() {
        return Some(Refusal::LongStream);
    }
    if memory < MEMORY {
        return Some(Refusal::LittleRoom);
    }
    if output < OUTPUT {
        return Some(Refusal::LittleRoom);
    }
    if state::in_range(a) {
        return None;
    }
    Some(Refusal::BadState)
}

// All that is asked before a frame, with the lengths of the memory and the output.
pub fn ready(a: Audio, stream: &[u8], memory: usize, output: usize) -> Asked
    ensures { result ≡ ready_of stream.now memory output a }
{
    if let Some(refusal) = refused_at_once(a, stream, memory, output) {
        return refused(refusal, a);
    }
    let h = headed(a, stream);
    match h.answer {
        Ok(()) => enough(h.state, stream, h.skipped),
        Err(_) => h,
    }
}

// Whether a format is known, or the next attempt finds one. Nothing is lent but the stream, so 9 cannot come.
pub fn known(a: Audio, stream: &[u8]) -> Asked
    ensures { result ≡ known_of stream.now a }
{
    if let Some(refusal) = refused_at_once(a, stream, MEMORY, OUTPUT) {
        return refused(refusal, a);
    }
    if a.format.samplerate == 3 {
        return attempt(a, stream);
    }
    Answered {
        answer: Ok(()),
        state: a,
        skipped: 0,
    }
}
