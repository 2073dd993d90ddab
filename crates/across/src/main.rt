// What firmware gets across the boundary: opens a clip on standard input, at most 65,536 bytes, asks for its format, and decodes until
// 1 or 7, through the tag's calls alone. A line for each call: its number, the state as the arrays hold it, and what else the call left:
// rate, kbps and mode; or behind a frame its start, bits and a checksum of its samples. What it must write are the unchanged Rust's
// answers: streams/README.md says how they were made.
#![tactic(auto)]

use std::io::Result;

// Each of these fails where standard output does not take all of it.
fn put_number(rt: HostRuntime, n: u64) -> Result<()> {
    print!(rt; " {n}")
}

fn put_count(rt: HostRuntime, n: u32) -> Result<()> {
    put_number(rt, n as u64)
}

fn put_bits(rt: HostRuntime, n: u64) -> Result<()> {
    print!(rt; " {n:016x}")
}

// A state, as the boundary has it.
#[derive(Clone, Copy)]
struct Saved {
    places: [usize; 8],
    counts: [u32; 8],
    time: [f64; 1],
}

// The six places of the state, what the call passed over, two counts, and the next start.
fn put_state(rt: HostRuntime, saved: &Saved) -> Result<()> {
    for place in &saved.places[..6] {
        put_number(rt, *place as u64)?;
    }
    put_number(rt, saved.places[7] as u64)?;
    for count in &saved.counts[..2] {
        put_count(rt, *count)?;
    }
    put_bits(rt, text::time_bits(saved.time[0]))
}

fn put_frame(
    rt: HostRuntime,
    start: f64,
    bits: usize,
    output: &[f32; synthesis::OUTPUT],
) -> Result<()> {
    put_bits(rt, text::time_bits(start))?;
    put_number(rt, bits as u64)?;
    put_bits(rt, text::checksum::sum(output))
}

// tag_open, and its line.
fn open(
    rt: HostRuntime,
    stream: &[u8],
    memory: &mut [f32; synthesis::MEMORY],
    saved: &mut Saved,
) -> Result<()> {
    let number = tag::tag_open(
        stream,
        memory,
        &mut saved.places,
        &mut saved.counts,
        &mut saved.time,
        0,
    );
    print!(rt; "open")?;
    put_count(rt, number)?;
    put_state(rt, saved)?;
    println!(rt)
}

// tag_format, and its line.
fn format(rt: HostRuntime, stream: &[u8], saved: &mut Saved) -> Result<()> {
    let mut rate = [0u32; 1];
    let mut kbps = [0u32; 1];
    let mut mode = [0u32; 1];
    let number = tag::tag_format(
        stream,
        &mut saved.places,
        &mut saved.counts,
        &mut saved.time,
        &mut rate,
        &mut kbps,
        &mut mode,
    );
    print!(rt; "format")?;
    put_count(rt, number)?;
    put_state(rt, saved)?;
    put_count(rt, rate[0])?;
    put_count(rt, kbps[0])?;
    put_count(rt, mode[0])?;
    println!(rt)
}

// One call of tag_decode, and its line. It answers the call's number.
fn decode(
    rt: HostRuntime,
    stream: &[u8],
    memory: &mut [f32; synthesis::MEMORY],
    output: &mut [f32; synthesis::OUTPUT],
    saved: &mut Saved,
) -> Result<u32> {
    let mut start = [0.0f64; 1];
    let mut bits = [0usize; 1];
    let number = tag::tag_decode(
        stream,
        memory,
        output,
        &mut saved.places,
        &mut saved.counts,
        &mut saved.time,
        &mut start,
        &mut bits,
    );
    print!(rt; "decode")?;
    put_count(rt, number)?;
    put_state(rt, saved)?;
    if number == 0 {
        put_frame(rt, start[0], bits[0], output)?;
    }
    println!(rt)?;
    Ok(number)
}

fn play(rt: HostRuntime, stream: &[u8]) -> Result<()> {
    let mut memory = [0.0f32; synthesis::MEMORY];
    let mut output = [0.0f32; synthesis::OUTPUT];
    let mut saved = Saved {
        places: [0; 8],
        counts: [0; 8],
        time: [0.0],
    };
    open(rt, stream, &mut memory, &mut saved)?;
    format(rt, stream, &mut saved)?;
    for _ in 0..stream.len() / 2 + 2 {
        let number = decode(rt, stream, &mut memory, &mut output, &mut saved)?;
        if audio::ends(number) {
            break;
        }
    }
    Ok(())
}

fn tell(rt: HostRuntime) {
    let mut room = [0u8; 65537];
    match input::read(&mut rt.stdin(), &mut room) {
        Ok(stream) => {
            if let Err(why) = play(rt, stream) {
                scribe::fail(rt, b"standard output", Some(why));
            }
        }
        Err(failed) => scribe::fail(rt, b"standard input", Some(failed.why)),
    }
}

fn main(rt: HostRuntime) {
    if input::argument_count(&rt) == 1 {
        tell(rt);
    } else {
        let _ = eprintln!(rt; "usage: ./run across < CLIP.mp2");
    }
}
