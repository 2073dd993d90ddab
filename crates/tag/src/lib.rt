// The boundary that firmware links: the decoder's three calls, and a frame's 16-bit samples; numbers and slices and nothing else.
// The crate tag_c gives them to C under the same names.
// specs/Boundary says what stands where in `places`, `counts` and `time`.
#![tactic(auto)]

ghost use Rattle.std.specs.Prelude.{◌≡◌};
ghost use Rattle.readings.specs.Readings.{reading_by};
ghost use Rattle.audio.specs.Calls.{open_of, open_memory};
ghost use Rattle.audio.specs.Numbers.{heading_number};
ghost use Rattle.tag.specs.Boundary.{state_of, places_of, counts_of, HeldIn, named_of, played_of, TagOpen, TagFormat, TagDecode, TagSamples16};

use audio::{Answer, ClipFormat};
use buffer::{BitIndex, Reader};
use header::Format;
use readings::Reading;
use refusal::Refusal;
use state::Audio;

fn restore(places: &[usize; 8], counts: &[u32; 8], time: &[f64; 1]) -> Audio
    ensures { result ≡ state_of places.now counts.now time.now }
{
    let format = Format {
        samplerate: places[1],
        bitrate: places[2],
        mode: counts[0],
        reading: Reading { choices: counts[2] },
        bound: places[3],
    };
    Audio {
        reader: Reader {
            at: BitIndex(places[0]),
        },
        format,
        frames: counts[1],
        pending: places[4],
        ring: places[5],
        time: time[0],
    }
}

// The last place is no part of the state: what the call passed over.
fn places_of(a: Audio, skipped: usize) -> [usize; 8]
    ensures { result ≡ places_of skipped a }
{
    [
        a.reader.at.0,
        a.format.samplerate,
        a.format.bitrate,
        a.format.bound,
        a.pending,
        a.ring,
        0,
        skipped,
    ]
}

fn counts_of(a: Audio) -> [u32; 8]
    ensures { result ≡ counts_of a }
{
    let f = a.format;
    [f.mode, a.frames, f.reading.choices, 0, 0, 0, 0, 0]
}

// The state after a call and what the call passed over, into the arrays that it was lent.
fn save(
    a: Audio,
    skipped: usize,
    places: &mut [usize; 8],
    counts: &mut [u32; 8],
    time: &mut [f64; 1],
)
    ensures { HeldIn skipped a places.new counts.new time.new }
{
    *places = places_of(a, skipped);
    *counts = counts_of(a);
    *time = [a.time];
}

fn heading_number(h: Result<(), Refusal>) -> u32
    ensures { result ≡ heading_number h }
{
    match h {
        Ok(()) => 0,
        Err(refusal) => refusal.number(),
    }
}

// Opens a decoder on the stream: the memory cleared, the first header tried. The number is returned.
pub fn tag_open(
    stream: &[u8],
    memory: &mut [f32],
    places: &mut [usize; 8],
    counts: &mut [u32; 8],
    time: &mut [f64; 1],
    choices: u32,
) -> u32
    ensures fact { let x = open_of (reading_by choices) stream.now memory.old in
        TagOpen x result places.new counts.new time.new }
    ensures memory_after { memory.new ≡ open_memory stream.now memory.old }
{
    let x = audio::new(stream, memory, readings::reading_by(choices));
    save(x.state, x.skipped, places, counts, time);
    heading_number(x.answer)
}

// A number, and the format in the units of the lister's line; zeros beside a refusal.
#[derive(Clone, Copy)]
pub struct Named {
    pub number: u32,
    pub rate: u32,
    pub kbps: u32,
    pub mode: u32,
}

fn of_reply(r: Result<ClipFormat, Refusal>) -> Named
    ensures { result ≡ named_of r }
{
    match r {
        Ok(format) => Named {
            number: 0,
            rate: format.rate,
            kbps: format.kbps,
            mode: format.mode,
        },
        Err(refusal) => Named {
            number: refusal.number(),
            rate: 0,
            kbps: 0,
            mode: 0,
        },
    }
}

// The stream's format, sought if none is known: the number is returned, the format is left in `rate`, `kbps` and `mode`.
pub fn tag_format(
    stream: &[u8],
    places: &mut [usize; 8],
    counts: &mut [u32; 8],
    time: &mut [f64; 1],
    rate: &mut [u32; 1],
    kbps: &mut [u32; 1],
    mode: &mut [u32; 1],
) -> u32
    ensures { let a = state_of places.old counts.old time.old in
        TagFormat stream.now a result places.new counts.new time.new
        rate.new kbps.new mode.new }
{
    let x = audio::format(restore(places, counts, time), stream);
    save(x.state, x.skipped, places, counts, time);
    let n = of_reply(x.answer);
    *rate = [n.rate];
    *kbps = [n.kbps];
    *mode = [n.mode];
    n.number
}

// A number, and a frame's start in seconds with the bits it used; zeros beside a refusal.
#[derive(Clone, Copy)]
pub struct Played {
    pub number: u32,
    pub start: f64,
    pub bits: usize,
}

fn of_answer(a: Answer) -> Played
    ensures { result ≡ played_of a }
{
    match a {
        Answer::Frame { time, bits } => Played {
            number: 0,
            start: time,
            bits,
        },
        Answer::Refused(refusal) => Played {
            number: refusal.number(),
            start: 0.0,
            bits: 0,
        },
    }
}

// The next frame: its number is returned, its start and its bits are left in `start` and `bits`.
pub fn tag_decode(
    stream: &[u8],
    memory: &mut [f32],
    output: &mut [f32],
    places: &mut [usize; 8],
    counts: &mut [u32; 8],
    time: &mut [f64; 1],
    start: &mut [f64; 1],
    bits: &mut [usize; 1],
) -> u32
    ensures { let a = state_of places.old counts.old time.old in
        TagDecode stream.now memory.old output.old a result memory.new output.new
        places.new counts.new time.new start.new bits.new }
{
    let x = audio::decode(restore(places, counts, time), stream, memory, output);
    save(x.state, x.skipped, places, counts, time);
    let p = of_answer(x.answer);
    *start = [p.start];
    *bits = [p.bits];
    p.number
}

// A frame's samples as a converter takes them, 16 bits each, rounded as in a WAV file.
pub fn tag_samples16(output: &[f32], samples: &mut [u16]) -> u32
    ensures { TagSamples16 output.now samples.old result samples.new }
{
    if output.len() < synthesis::OUTPUT {
        return 9;
    }
    if samples.len() < synthesis::OUTPUT {
        return 9;
    }
    riff::write_words(
        &output[..synthesis::OUTPUT],
        &mut samples[..synthesis::OUTPUT],
    );
    0
}
