// Inner layers across the boundary, for the comparison with the Rust. Nothing here is part of the tag.
#![tactic(auto)]

mod reading;
mod runs;

ghost use Rattle.std.specs.Prelude.{◌≡◌, ◌+◌, ◌<◌, ◌≤◌, length, slice_set};
ghost use Rattle.buffer.specs.Calls.{reader_at};
ghost use Rattle.grammar.specs.Reads.{run, taken};
ghost use Rattle.tables.specs.Standard.{limit_of};
ghost use Rattle.tables.specs.Differences.{table_of};
ghost use Rattle.side.specs.Side.{cut_of, side_of};
ghost use Rattle.side.specs.Below.{Below, side_with};
ghost use Rattle.codes.specs.Frame.{samples_from};
ghost use Rattle.transform.specs.Transform.{Small};
ghost use Rattle.window.specs.Output.{Place};
ghost use Rattle.synthesis.specs.Slots.{slot_samples, position_after, memory_after, output_after};

use buffer::{BitIndex, Reader};
use side::{Layout, SideInfo};

// The limit of subbands, the allocation table, and the bound cut to the limit.
#[unsafe(no_mangle)]
pub extern "C" fn probe_layout(
    mode: u32,
    bitrate: usize,
    samplerate: usize,
    bound: usize,
    answer: &mut [usize; 3],
)
    requires { (bitrate < 14) × (samplerate < 3) }
    ensures { let l = limit_of mode bitrate samplerate in let t = table_of mode bitrate samplerate in
        answer.new ≡ slice_set (slice_set (slice_set answer.old 0 l) 1 t) 2 (cut_of bound l) }
{
    let limit = tables::limit(mode, bitrate, samplerate);
    let table = tables::allocation_table(mode, bitrate, samplerate);
    let cut = side::cut(bound, limit);
    answer[0] = limit;
    answer[1] = table;
    answer[2] = cut;
}

// What stands before the codes of a frame, from bit `at`. The bit after it is returned.
#[unsafe(no_mangle)]
pub extern "C" fn probe_side(
    stream: &[u8],
    at: usize,
    mono: bool,
    table: usize,
    bound: usize,
    limit: usize,
    quant: &mut [u8; 64],
    factor: &mut [u32; 192],
) -> usize
    requires { (table < 2) × (limit ≤ 32) }
    ensures { let side = side_with quant.new factor.new in
        taken side (reader_at result) ≡ run (side_of mono table bound limit) stream.now (reader_at at) }
{
    let reader = Reader { at: BitIndex(at) };
    let layout = Layout {
        mono,
        table,
        bound,
        limit,
    };
    let read = side::read_side(reader, stream, layout);
    let side = read.value;
    let quantisers = side.quant;
    let factors = side.factor;
    *quant = quantisers;
    *factor = factors;
    read.next.at.0
}

// The samples of a granule in that part of the frame, from bit `at`. The bit after its codes is returned.
#[unsafe(no_mangle)]
pub extern "C" fn probe_granule(
    stream: &[u8],
    at: usize,
    quant: &[u8; 64],
    factor: &[u32; 192],
    part: usize,
    bound: usize,
    limit: usize,
    sample: &mut [i32; 192],
) -> usize
    requires { (part < 3) × (limit ≤ 32) × Below 18 quant.now × Below 33554433 factor.now }
    ensures { let side = side_with quant.now factor.now in
        let samples = samples_from side part bound limit sample.old in
        taken sample.new (reader_at result) ≡ run samples stream.now (reader_at at) }
{
    let reader = Reader { at: BitIndex(at) };
    // A granule goes by the bound and the limit alone.
    let layout = Layout {
        mono: false,
        table: 0,
        bound,
        limit,
    };
    let side = SideInfo {
        layout,
        quant: *quant,
        factor: *factor,
    };
    let next = codes::read_granule(reader, stream, &side, part, sample);
    next.at.0
}

// The sound of a granule from ring position p. The position after it is returned.
#[unsafe(no_mangle)]
pub extern "C" fn probe_synthesize(
    memory: &mut [f32],
    p: usize,
    sample: &[i32; 192],
    output: &mut [f32],
    at: usize,
) -> usize
    requires { Place p × (2048 ≤ length memory.old) × Small sample.now × (at + 192 ≤ length output.old) }
    ensures value { result ≡ position_after p 3 }
    ensures memory_after { memory.new ≡ memory_after (slot_samples sample.now) p memory.old 3 }
    ensures output_after { output.new ≡ output_after (slot_samples sample.now) p memory.old output.old at 3 }
{
    let window = window::synthesis_window();
    synthesis::synthesize(memory, p, sample, &window, output, at)
}
