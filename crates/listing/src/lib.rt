// What is in a clip, call by call: the lines of 01's lister, before they are text.
#![tactic(auto)]

ghost use Rattle.std.specs.Prelude.{◌≡◌, ◌≤◌, length};
ghost use Rattle.tables.specs.Standard.{kbps_of, rate_of};
ghost use Rattle.audio.specs.Calls.{decode_memory, decode_output};
ghost use Rattle.listing.specs.Lines.{byte_before, byte_position, carried_by, is_last, line_by, next_of, opening_told};
ghost use Rattle.listing.specs.Tally.{skipped_in};

use audio::Answer;
use buffer::{BitIndex, BytePos};
use state::Audio;
use verdict::Asked;

#[derive(Clone, Copy)]
pub enum Line {
    Frame {
        number: u32,
        at: BytePos,
        rate: u32,
        kbps: u32,
        mode: u32,
        bits: usize,
        time: f64,
        skipped: usize,
    },
    Refused {
        number: u32,
        at: BytePos,
        skipped: usize,
    },
    End {
        number: u32,
        at: BytePos,
        skipped: usize,
    },
    Long,
}

// What stands behind a line's text: nothing in 01's listing, a frame's marks in replay's, and for people what the line means.
#[derive(Clone, Copy)]
pub enum Behind {
    Nothing,
    Marks,
    Words,
}

#[derive(Clone, Copy)]
pub struct Listed {
    pub line: Line,
    pub state: Audio,
}

// The byte position, rounded down.
pub fn byte_of(a: Audio) -> BytePos
    ensures { result ≡ byte_position a }
{
    a.reader.at.byte()
}

// The byte before `end` by `bits`, rounded up to bytes.
fn byte_before(end: BytePos, bits: usize) -> BytePos
    ensures { result ≡ byte_before end bits }
{
    let bytes = BitIndex(bits).byte_after();
    BytePos(end.0.saturating_sub(bytes.0))
}

fn rate(samplerate: usize) -> u32
    ensures { result ≡ rate_of samplerate }
{
    if samplerate < 4 {
        return tables::rate(samplerate);
    }
    0
}

fn kbps(bitrate: usize) -> u32
    ensures { result ≡ kbps_of bitrate }
{
    if bitrate < 14 {
        return tables::kbps(bitrate);
    }
    0
}

// Whether no line follows.
pub fn is_last(line: Line) -> bool
    ensures { result ≡ is_last line }
{
    match line {
        Line::Frame { .. } => false,
        Line::Refused { .. } => false,
        Line::End { .. } => true,
        Line::Long => true,
    }
}

// Whether a refused opening has a line: one that gave 1 is told by the first call. E3's 13 is told as 2 to 5 are.
pub fn is_told(number: u32) -> bool
    ensures { result ≡ opening_told number }
{
    ((2 <= number) & (number <= 5)) | (number == 13)
}

// 02, E2: "A header accepted at opening has no line; its number goes to the line after it".
pub fn carried(opened: Asked) -> usize
    ensures { result ≡ carried_by opened.skipped opened.answer }
{
    match opened.answer {
        Ok(()) => opened.skipped,
        Err(_) => 0,
    }
}

// The bytes that a line says were passed over.
pub fn skipped(line: Line) -> usize
    ensures { result ≡ skipped_in line }
{
    match line {
        Line::Frame { skipped, .. } => skipped,
        Line::Refused { skipped, .. } => skipped,
        Line::End { skipped, .. } => skipped,
        Line::Long => 0,
    }
}

// One decode call, and its line, which adds what an accepted opening before it passed over.
pub fn next_line(
    a: Audio,
    stream: &[u8],
    memory: &mut [f32],
    output: &mut [f32],
    carried: usize,
) -> Listed
    requires { carried ≤ length stream.now }
    ensures value { result ≡ next_of stream.now memory.old output.old carried a }
    ensures memory_after { memory.new ≡ decode_memory stream.now memory.old output.old a }
    ensures output_after { output.new ≡ decode_output stream.now memory.old output.old a }
{
    let d = audio::decode(a, stream, memory, output);
    let line = line_of(a.frames, d.answer, d.state, carried + d.skipped);
    Listed {
        line,
        state: d.state,
    }
}

fn line_of(number: u32, answer: Answer, state: Audio, skipped: usize) -> Line
    ensures { result ≡ line_by number skipped answer state }
{
    let f = state.format;
    let end = byte_of(state);
    match answer {
        Answer::Frame { time, bits } => Line::Frame {
            number,
            at: byte_before(end, bits),
            rate: rate(f.samplerate),
            kbps: kbps(f.bitrate),
            mode: f.mode,
            bits,
            time,
            skipped,
        },
        Answer::Refused(refusal) => {
            let n = refusal.number();
            if audio::ends(n) {
                return Line::End {
                    number: n,
                    at: end,
                    skipped,
                };
            }
            Line::Refused {
                number: n,
                at: end,
                skipped,
            }
        }
    }
}
