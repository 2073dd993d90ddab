// A frame whose header is accepted: audio.rs's `decode_frame`, from the first allocation bit to the last sample.
#![tactic(auto)]

ghost use Rattle.std.specs.Prelude.{◌≡◌, ◌≤◌, ◌<◌, eqb, length};
ghost use Rattle.window.specs.Output.{Place};
ghost use Rattle.synthesis.specs.Slots.{memory_length, output_length};
ghost use Rattle.tables.specs.Differences.{table_of};
ghost use Rattle.side.specs.Side.{cut_of};
ghost use Rattle.frame.specs.Frame.{Fit, limit_in, cut_format, granules_at};
ghost use Rattle.frame.specs.Sounds.{GranulesLent, one_granule, GranuleSounds, twelve_granules, FrameSounds};

use buffer::Reader;
use header::Format;
use side::{Layout, SideInfo};
use tables::MODE_MONO;
use window::Window;

// The reader after the codes so far, and the ring position after their slots.
#[derive(Clone, Copy)]
pub struct Sounded {
    pub end: Reader,
    pub ring: usize,
}

// The bound, cut down to the limit.
pub fn cut_format(f: Format) -> Format
    requires { Fit f }
    ensures { result ≡ cut_format f }
{
    let limit = tables::limit(f.mode, f.bitrate, f.samplerate);
    Format {
        bound: side::cut(f.bound, limit),
        ..f
    }
}

// How the fields of a frame of this format are laid out.
fn lay_out(f: Format) -> Layout
    requires { Fit f }
    ensures mono { result.mono ≡ eqb f.mode 3 }
    ensures table { result.table ≡ table_of f.mode f.bitrate f.samplerate }
    ensures bound { result.bound ≡ cut_of f.bound (limit_in f) }
    ensures limit { result.limit ≡ limit_in f }
{
    let limit = tables::limit(f.mode, f.bitrate, f.samplerate);
    let bound = side::cut(f.bound, limit);
    Layout {
        mono: f.mode == MODE_MONO,
        table: tables::allocation_table(f.mode, f.bitrate, f.samplerate),
        bound,
        limit,
    }
}

// Granule g: its codes are read, and its three slots sound.
fn granule(
    s: &[u8],
    start: Sounded,
    side: &SideInfo,
    g: usize,
    window: &Window,
    memory: &mut [f32],
    output: &mut [f32],
) -> Sounded
    requires { (g < 12) × GranulesLent start.ring memory.old output.old }
    ensures { let x = one_granule s.now start.end side.now g in
        GranuleSounds x g start.ring memory.old output.old result memory.new output.new }
{
    let mut sample = [0i32; 192];
    let end = codes::read_granule(start.end, s, side, g / 4, &mut sample);
    let ring = synthesis::synthesize(memory, start.ring, &sample, window, output, 192 * g);
    Sounded { end, ring }
}

// The 12 granules of a frame, from the reader after its scale factors.
fn granules(
    s: &[u8],
    start: Sounded,
    side: &SideInfo,
    window: &Window,
    memory: &mut [f32],
    output: &mut [f32],
) -> Sounded
    requires { GranulesLent start.ring memory.old output.old }
    ensures { let x = twelve_granules s.now start.end side.now in
        FrameSounds x start.ring memory.old output.old result memory.new output.new }
{
    let mut at = start;
    for g in 0..12 {
        at = granule(s, at, side, g, window, memory, output);
    }
    at
}

// From the first allocation bit: the reader after the last code, not aligned yet, and the ring position after 36 slots.
pub fn decode_frame(
    s: &[u8],
    reader: Reader,
    f: Format,
    ring: usize,
    memory: &mut [f32],
    output: &mut [f32],
) -> Sounded
    requires { Fit f × Place ring × (memory_length ≤ length memory.old) × (output_length ≤ length output.old) }
    ensures { let x = granules_at s.now reader f in
        FrameSounds x ring memory.old output.old result memory.new output.new }
{
    let side = side::read_side(reader, s, lay_out(f));
    let window = window::synthesis_window();
    let start = Sounded {
        end: side.next,
        ring,
    };
    granules(s, start, &side.value, &window, memory, output)
}
