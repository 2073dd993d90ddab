// Writes what is heard of a clip on standard input, at most 65,536 bytes, as a WAVE file on standard output. On standard error it ends
// with the clip in one line.
#![tactic(auto)]

ghost use Rattle.std.specs.Prelude.{◌≤◌, ◌≡◌, length};
ghost use Rattle.clip.specs.Frames.{clip_of};
ghost use Rattle.clip.specs.File.{frame_parts, joined, wave_of};
ghost use Rattle.scribe.specs.Page.{IsWritten, Leaves};

use scribe::{Page, Whole};

// The second pass, from a fresh opening: a part for each frame, behind the header.
fn put_frames(page: &mut Page, stream: &[u8], frames: usize)
    requires short { length stream.now ≤ 65536 }
    requires counted { frames ≡ length (clip_of stream.now) }
    requires left { Leaves Whole.Wave stream.now page.old (joined (frame_parts (clip_of stream.now))) }
    ensures { IsWritten Whole.Wave stream.now page.new }
{
    let mut memory = [0.0f32; synthesis::MEMORY];
    let mut output = [0.0f32; synthesis::OUTPUT];
    let mut bytes = [0u8; 4608];
    let mut playing = clip::start(stream, &mut memory);
    for _ in 0..frames {
        let reached = clip::next(playing, stream, &mut memory, &mut output);
        riff::write_samples(&output, &mut bytes);
        page.put(&bytes);
        playing = reached.playing;
    }
}

// The lengths stand before the samples, so the first pass counts.
fn put_file(page: &mut Page, stream: &[u8])
    requires short { length stream.now ≤ 65536 }
    requires left { Leaves Whole.Wave stream.now page.old (wave_of stream.now) }
    ensures { IsWritten Whole.Wave stream.now page.new }
{
    let counted = clip::count(stream);
    let header = riff::header(counted.frames as u32, counted.rate);
    page.put(&header);
    put_frames(page, stream, counted.frames);
}

// Of more than 65,536 bytes it writes nothing.
fn whole<'a>(rt: HostRuntime, stream: &'a [u8]) -> Page<'a>
    ensures { IsWritten Whole.Wave stream.now result }
{
    let mut page = Page::new(rt, Whole::Wave, stream);
    if stream.len() <= 65536 {
        put_file(&mut page, stream);
    }
    page
}

fn play(rt: HostRuntime) {
    let mut room = [0u8; 65537];
    match input::read(&mut rt.stdin(), &mut room) {
        Ok(stream) => tell(rt, stream),
        Err(failed) => scribe::fail(rt, b"standard input", Some(failed.why)),
    }
}

fn tell(rt: HostRuntime, stream: &[u8]) {
    match whole(rt, stream).finish() {
        Ok(()) => {
            let _ = summary::tell(rt, stream, readings::plain()).finish();
        }
        Err(why) => scribe::fail(rt, b"standard output", Some(why)),
    }
}

fn main(rt: HostRuntime) {
    if input::argument_count(&rt) == 1 {
        play(rt);
    } else {
        let _ = eprintln!(rt; "usage: ./run wav < CLIP.mp2 > SOUND.wav");
    }
}
