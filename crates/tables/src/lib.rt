// The tables of the source, and what is looked up in them.
#![tactic(auto)]

ghost use Rattle.std.specs.Prelude.{◌≡◌, ◌^◌, ◌<◌};
ghost use Rattle.tables.specs.Source.{step4, class_of, entry_of, source_row_of, width_of, quantiser_of};
ghost use Rattle.tables.specs.Standard.{kbps_of, rate_of, limit_of, levels_of, code_bits_of, grouped_of};
ghost use Rattle.tables.specs.Differences.{table_of};

mod quantiser_table;

pub use quantiser_table::QuantiserTable;

const BIT_RATE: [u32; 14] = [
    32, 48, 56, 64, 80, 96, 112, 128, 160, 192, 224, 256, 320, 384,
];

const SAMPLE_RATE: [u32; 4] = [44100, 48000, 32000, 0];

pub const MODE_MONO: u32 = 3;

// Bit rate classes: mono, then the other modes.
const QUANT_LUT_STEP_1: [[usize; 16]; 2] = [
    [0, 0, 1, 1, 1, 2, 2, 2, 2, 2, 2, 2, 2, 2, 0, 0],
    [0, 0, 0, 0, 0, 0, 1, 1, 1, 2, 2, 2, 2, 2, 0, 0],
];

// Class and sample rate: the limit, and 64 more for the high-rate table.
const QUANT_LUT_STEP_2: [[usize; 3]; 3] = [[8, 8, 12], [91, 91, 91], [94, 91, 94]];

// Row and allocation: the quantiser.
const QUANT_LUT_STEP_4: [[u8; 16]; 5] = [
    [0, 1, 2, 17, 0, 0, 0, 0, 0, 0, 0, 0, 0, 0, 0, 0],
    [0, 1, 2, 3, 4, 5, 6, 17, 0, 0, 0, 0, 0, 0, 0, 0],
    [0, 1, 2, 3, 4, 5, 6, 7, 8, 9, 10, 11, 12, 13, 14, 17],
    [0, 1, 3, 5, 6, 7, 8, 9, 10, 11, 12, 13, 14, 15, 16, 17],
    [0, 1, 2, 4, 5, 6, 7, 8, 9, 10, 11, 12, 13, 14, 15, 17],
];

pub fn kbps(bitrate: usize) -> u32
    requires { bitrate < 14 }
    ensures { result ≡ kbps_of bitrate }
{
    BIT_RATE[bitrate]
}

pub fn rate(samplerate: usize) -> u32
    requires { samplerate < 4 }
    ensures { result ≡ rate_of samplerate }
{
    SAMPLE_RATE[samplerate]
}

fn class(mono: bool, bitrate: usize) -> usize
    requires { bitrate < 14 }
    ensures { result ≡ class_of mono bitrate }
{
    if mono {
        return QUANT_LUT_STEP_1[0][bitrate];
    }
    QUANT_LUT_STEP_1[1][bitrate]
}

fn entry(mono: bool, bitrate: usize, samplerate: usize) -> usize
    requires { (bitrate < 14) × (samplerate < 3) }
    ensures { result ≡ entry_of mono bitrate samplerate }
{
    let class = class(mono, bitrate);
    QUANT_LUT_STEP_2[class][samplerate]
}

// The number of subbands that can be allocated.
pub fn limit(mode: u32, bitrate: usize, samplerate: usize) -> usize
    requires { (bitrate < 14) × (samplerate < 3) }
    ensures { result ≡ limit_of mode bitrate samplerate }
{
    entry(mode == MODE_MONO, bitrate, samplerate) % 64
}

// The allocation table: 0 for the low rates, 1 for the high.
pub fn allocation_table(mode: u32, bitrate: usize, samplerate: usize) -> usize
    requires { (bitrate < 14) × (samplerate < 3) }
    ensures { result ≡ table_of mode bitrate samplerate }
{
    entry(mode == MODE_MONO, bitrate, samplerate) / 64
}

// For a caller to build once and lend.
pub fn allocation_quantisers() -> QuantiserTable
    ensures { result.rows ≡ step4 }
{
    QuantiserTable {
        rows: QUANT_LUT_STEP_4,
    }
}

// QUANT_LUT_STEP_3 by ranges of subbands: 16 times the allocation's width, and a row of step 4.
fn low_row(sb: usize) -> usize
    requires { sb < 32 }
    ensures { result ≡ source_row_of 0 sb }
{
    match sb {
        0..=1 => 0x44,
        2..=11 => 0x34,
        _ => 0,
    }
}

fn high_row(sb: usize) -> usize
    requires { sb < 32 }
    ensures { result ≡ source_row_of 1 sb }
{
    match sb {
        0..=2 => 0x43,
        3..=10 => 0x42,
        11..=22 => 0x31,
        23..=29 => 0x20,
        _ => 0,
    }
}

fn row(table: usize, sb: usize) -> usize
    requires { (table < 2) × (sb < 32) }
    ensures { result ≡ source_row_of table sb }
{
    if table == 0 {
        return low_row(sb);
    }
    high_row(sb)
}

// The width of a subband's allocation.
pub fn allocation_bits(table: usize, sb: usize) -> usize
    requires { (table < 2) × (sb < 32) }
    ensures { result ≡ width_of table sb }
{
    row(table, sb) / 16
}

// The quantiser that an allocation stands for: 0 to 17.
pub fn quantiser(quantisers: &QuantiserTable, table: usize, sb: usize, allocation: usize) -> u8
    requires { (table < 2) × (sb < 32) × (allocation < 16) }
    ensures { result ≡ quantiser_of table sb allocation }
{
    quantisers.rows[row(table, sb) % 16][allocation]
}

// Three samples share a code.
pub fn grouped(q: usize) -> bool
    requires { q < 18 }
    ensures { result ≡ grouped_of q }
{
    (q == 1) | (q == 2) | (q == 4)
}

pub fn code_bits(q: usize) -> usize
    requires { q < 18 }
    ensures { result ≡ code_bits_of q }
{
    match q {
        0 => 0,
        1 => 5,
        2 => 7,
        3 => 3,
        4 => 10,
        _ => q - 1,
    }
}

pub fn levels(q: usize) -> u32
    requires { q < 18 }
    ensures { result ≡ levels_of q }
{
    if grouped(q) {
        return 2 * q as u32 + 1;
    }
    (1u32 << code_bits(q)) - 1
}
