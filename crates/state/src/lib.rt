// The decoder's state between calls: audio.rs's `Audio`, by value, and when it is in range.
#![tactic(auto)]

ghost use Rattle.std.specs.Prelude.{◌≡◌};
ghost use Rattle.state.specs.State.{fresh, numbers_ok, in_range};

use buffer::{BitIndex, FARTHEST_BIT, Reader};
use header::{Format, LEAST_DATA, MOST_DATA};
use readings::Reading;

// `pending` is the data size of a header whose frame is not decoded yet, or 0; `time` is the start of the next frame.
#[derive(Clone, Copy)]
pub struct Audio {
    pub reader: Reader,
    pub format: Format,
    pub frames: u32,
    pub pending: usize,
    pub ring: usize,
    pub time: f64,
}

pub fn fresh_state(reading: Reading) -> Audio
    ensures { result ≡ fresh reading }
{
    let reader = Reader { at: BitIndex(0) };
    let format = Format {
        reading,
        samplerate: 3,
        bitrate: 0,
        mode: 0,
        bound: 0,
    };
    Audio {
        reader,
        format,
        frames: 0,
        pending: 0,
        ring: 0,
        time: 0.0,
    }
}

fn numbers_ok(a: Audio) -> bool
    ensures { result ≡ numbers_ok a }
{
    let f = a.format;
    let r = a.reader;
    let at = r.at;
    (at.0 <= FARTHEST_BIT)
        & (a.frames as usize * 16 <= at.0)
        & (f.samplerate <= 3)
        & (f.bitrate <= 13)
        & (f.mode <= 3)
        & (f.bound <= 32)
        & ((f.mode != 3) | (f.bound == 0))
        & (a.ring % 64 == 0)
        & (a.ring < 1024)
        & ((a.pending == 0) | ((LEAST_DATA <= a.pending) & (a.pending <= MOST_DATA)))
        & ((f.samplerate != 3) | ((a.frames == 0) & (a.pending == 0)))
}

pub fn in_range(a: Audio) -> bool
    ensures { result ≡ in_range a }
{
    if numbers_ok(a) {
        let f = a.format;
        return clock::on_time(a.time, a.frames, f.samplerate);
    }
    false
}
