// Ways of reading, chosen at a decoder's opening: 02's choices, and the pairs of bit rate and mode that the strict one refuses.
#![tactic(auto)]

ghost use Rattle.std.specs.Prelude.{◌≡◌, ◌<◌};
ghost use Rattle.readings.specs.Readings.{plain as plainReading, reading_by, strict as strictReading};
ghost use Rattle.readings.specs.Pairs.{only_mono, never_mono, barred as barred_pair};

// How a decoder reads: chosen at its opening, and kept. Each choice is a bit; specs/Readings says what it is for. `strict` has its
// effect; each of the others waits for its request.
#[derive(Clone, Copy)]
pub struct Reading {
    pub choices: u32,
}

// 01's decoder: no choice is taken.
pub fn plain() -> Reading
    ensures { result ≡ plainReading }
{
    Reading { choices: 0 }
}

// The reading that a caller asks for: what is no choice yet is dropped.
pub fn reading_by(choices: u32) -> Reading
    ensures { result ≡ reading_by choices }
{
    Reading {
        choices: choices % 32,
    }
}

// 02, E3: only the pairs of bit rate and mode that the standard has.
fn strict(reading: Reading) -> bool
    ensures { result ≡ strictReading reading }
{
    reading.choices % 2 == 1
}

fn only_mono(kbps: u32) -> bool
    ensures { result ≡ only_mono kbps }
{
    matches!(kbps, 32 | 48 | 56 | 80)
}

fn never_mono(kbps: u32) -> bool
    ensures { result ≡ never_mono kbps }
{
    matches!(kbps, 224 | 256 | 320 | 384)
}

// Whether the standard does not have this bit rate in this mode, and the reading minds it.
pub fn barred(reading: Reading, bitrate: usize, mode: u32) -> bool
    requires { bitrate < 14 }
    ensures { result ≡ barred_pair reading bitrate mode }
{
    let kbps = tables::kbps(bitrate);
    if mode == tables::MODE_MONO {
        return strict(reading) & never_mono(kbps);
    }
    strict(reading) & only_mono(kbps)
}
