// The symbols that firmware links: each hands its call on to the crate tag, and promises what that promises.
#![tactic(auto)]

ghost use Rattle.std.specs.Prelude.{◌≡◌};
ghost use Rattle.readings.specs.Readings.{reading_by};
ghost use Rattle.audio.specs.Calls.{open_of, open_memory};
ghost use Rattle.tag.specs.Boundary.{state_of, TagOpen, TagFormat, TagDecode, TagSamples16};

// Opens a decoder on the stream: the memory cleared, the first header tried. The number is returned.
#[unsafe(no_mangle)]
pub extern "C" fn tag_open(
    stream: &[u8],
    memory: &mut [f32],
    places: &mut [usize; 8],
    counts: &mut [u32; 8],
    time: &mut [f64; 1],
    choices: u32,
) -> u32
    ensures fact { let x = open_of (reading_by choices) stream.now memory.old in
        TagOpen x result places.new counts.new time.new }
    ensures memory_after { memory.new ≡ open_memory stream.now memory.old }
{
    tag::tag_open(stream, memory, places, counts, time, choices)
}

// The stream's format, sought if none is known: the number is returned, the format is left in `rate`, `kbps` and `mode`.
#[unsafe(no_mangle)]
pub extern "C" fn tag_format(
    stream: &[u8],
    places: &mut [usize; 8],
    counts: &mut [u32; 8],
    time: &mut [f64; 1],
    rate: &mut [u32; 1],
    kbps: &mut [u32; 1],
    mode: &mut [u32; 1],
) -> u32
    ensures { let a = state_of places.old counts.old time.old in
        TagFormat stream.now a result places.new counts.new time.new
        rate.new kbps.new mode.new }
{
    tag::tag_format(stream, places, counts, time, rate, kbps, mode)
}

// The next frame: its number is returned, its start and its bits are left in `start` and `bits`.
#[unsafe(no_mangle)]
pub extern "C" fn tag_decode(
    stream: &[u8],
    memory: &mut [f32],
    output: &mut [f32],
    places: &mut [usize; 8],
    counts: &mut [u32; 8],
    time: &mut [f64; 1],
    start: &mut [f64; 1],
    bits: &mut [usize; 1],
) -> u32
    ensures { let a = state_of places.old counts.old time.old in
        TagDecode stream.now memory.old output.old a result memory.new output.new
        places.new counts.new time.new start.new bits.new }
{
    tag::tag_decode(stream, memory, output, places, counts, time, start, bits)
}

// A frame's samples as a converter takes them, 16 bits each, rounded as in a WAV file.
#[unsafe(no_mangle)]
pub extern "C" fn tag_samples16(output: &[f32], samples: &mut [u16]) -> u32
    ensures { TagSamples16 output.now samples.old result samples.new }
{
    tag::tag_samples16(output, samples)
}
