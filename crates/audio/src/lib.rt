// The decoder's three public calls: audio.rs's `Audio`, its state by value, its memory and output lent. None refuses silently.
#![tactic(auto)]

ghost use Rattle.std.specs.Prelude.{◌≡◌, ◌≤◌, ◌<◌, length, Ok};
ghost use Rattle.synthesis.specs.Slots.{memory_length, output_length};
ghost use Rattle.audio.specs.Calls.{aligned_of, after_of, framed_of, framed_memory, framed_output, decode_of, decode_memory, decode_output, no_room_of, open_of, open_memory, blank, saying, format_of};
ghost use Rattle.audio.specs.CallsLaws.{Ready, Ended};
ghost use Rattle.audio.specs.Numbers.{ends as endsBy};

use buffer::{LONGEST_STREAM, Reader};
use header::Format;
use readings::Reading;
use refusal::Refusal;
use state::Audio;
use synthesis::MEMORY;
use verdict::{Answered, Asked};

// A format in the lister's units: samples a second, kilobits a second, and the mode (0 stereo, 1 joint stereo, 2 two channels,
// 3 mono).
#[derive(Clone, Copy)]
pub struct ClipFormat {
    pub rate: u32,
    pub kbps: u32,
    pub mode: u32,
}

// 02, E2: `skipped` is how many bytes the call passed over as it sought a header, 0 where it sought none.
pub type Replied = Answered<Result<ClipFormat, Refusal>>;

// A frame with its start time in seconds and the bits it used, or a refusal with its number.
#[derive(Clone, Copy)]
pub enum Answer {
    Frame { time: f64, bits: usize },
    Refused(Refusal),
}

pub type Decoded = Answered<Answer>;

// 1 and 7 end a stream. After any other number a later call may give a frame.
pub fn ends(number: u32) -> bool
    ensures { result ≡ endsBy number }
{
    (number == 1) | (number == 7)
}

fn aligned(stream: &[u8], reader: Reader) -> Reader
    ensures { result ≡ aligned_of stream.now reader }
{
    match reader.align(stream) {
        Ok(next) => next,
        Err(_) => reader,
    }
}

// The answer and the state after a frame whose reading ended at `end`; what was passed over before its header is handed on.
fn after(a: Audio, stream: &[u8], end: Reader, ring: usize, skipped: usize) -> Decoded
    requires { Ended stream.now a end }
    ensures { result ≡ after_of stream.now skipped a end ring }
{
    let bits = end.at.0 - a.reader.at.0;
    let reader = aligned(stream, end);
    let format = frame::cut_format(a.format);
    let frames = a.frames + 1;
    let time = clock::start_time(frames, a.format.samplerate);
    Answered {
        answer: Answer::Frame { time: a.time, bits },
        state: Audio {
            reader,
            format,
            frames,
            pending: 0,
            ring,
            time,
            ..a
        },
        skipped,
    }
}

// The frame whose header is pending and whose data are there.
fn framed(
    a: Audio,
    stream: &[u8],
    memory: &mut [f32],
    output: &mut [f32],
    skipped: usize,
) -> Decoded
    requires { Ready stream.now a × (memory_length ≤ length memory.old) × (output_length ≤ length output.old) }
    ensures value { result ≡ framed_of stream.now skipped a }
    ensures memory_after { memory.new ≡ framed_memory stream.now a memory.old }
    ensures output_after { output.new ≡ framed_output stream.now a memory.old output.old }
{
    let played = frame::decode_frame(stream, a.reader, a.format, a.ring, memory, output);
    after(a, stream, played.end, played.ring, skipped)
}

fn clear(memory: &mut [f32])
    requires { length memory.old ≡ memory_length }
    ensures { memory.new ≡ blank }
{
    memory.fill(0.0);
}

// 8 or 9 of an opening, which has no output; or none.
fn no_room(stream: &[u8], memory: usize) -> Option<Refusal>
    ensures { result ≡ no_room_of stream.now memory }
{
    if LONGEST_STREAM < stream.len() {
        return Some(Refusal::LongStream);
    }
    if memory < MEMORY {
        return Some(Refusal::LittleRoom);
    }
    None
}

// A decoder at the stream's start: its memory cleared, and the first header tried.
pub fn new(stream: &[u8], memory: &mut [f32], reading: Reading) -> Asked
    ensures value { result ≡ open_of reading stream.now memory.old }
    ensures memory_after { memory.new ≡ open_memory stream.now memory.old }
{
    let state = state::fresh_state(reading);
    if let Some(refusal) = no_room(stream, memory.len()) {
        return Answered {
            answer: Err(refusal),
            state,
            skipped: 0,
        };
    }
    clear(&mut memory[0..MEMORY]);
    verdict::attempt(state, stream)
}

// A format that is known, in its units; or the refusal.
fn say(known: Result<(), Refusal>, f: Format) -> Result<ClipFormat, Refusal>
    requires { known ≡ Ok tt → (f.samplerate < 4) × (f.bitrate < 14) }
    ensures { result ≡ saying known f }
{
    known?;
    Ok(ClipFormat {
        rate: tables::rate(f.samplerate),
        kbps: tables::kbps(f.bitrate),
        mode: f.mode,
    })
}

// The stream's format: the one that is known, or else the next attempt's. A header that the attempt accepts is pending, so `decode`
// does not seek it again.
pub fn format(a: Audio, stream: &[u8]) -> Replied
    ensures { result ≡ format_of stream.now a }
{
    let h = verdict::known(a, stream);
    let state = h.state;
    Answered {
        answer: say(h.answer, state.format),
        state,
        skipped: h.skipped,
    }
}

// The next frame, or a refusal.
pub fn decode(a: Audio, stream: &[u8], memory: &mut [f32], output: &mut [f32]) -> Decoded
    ensures value { result ≡ decode_of stream.now memory.old output.old a }
    ensures memory_after { memory.new ≡ decode_memory stream.now memory.old output.old a }
    ensures output_after { output.new ≡ decode_output stream.now memory.old output.old a }
{
    let r = verdict::ready(a, stream, memory.len(), output.len());
    match r.answer {
        Ok(()) => framed(r.state, stream, memory, output, r.skipped),
        Err(refusal) => Answered {
            answer: Answer::Refused(refusal),
            state: r.state,
            skipped: r.skipped,
        },
    }
}
