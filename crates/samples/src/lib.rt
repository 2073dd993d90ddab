// From a code to its sample: the integers of `read_samples` in the source.
#![tactic(auto)]

ghost use Rattle.std.specs.Prelude.{◌≡◌, ◌/◌, ◌%◌, ◌≤◌, ◌<◌, nat_abs, get_or};
ghost use Rattle.tables.specs.Standard.{levels_of};
ghost use Rattle.samples.specs.Sample.{bases, scale_of, adj_of, centred_by, scaled_by, sample_of, factor_of, digits_of};

// Three codes of one subband, one for each slot.
#[derive(Clone, Copy)]
pub struct Three {
    pub first: u32,
    pub second: u32,
    pub third: u32,
}

fn split(levels: u32, code: u32) -> Three
    requires { 0 < levels }
    ensures { result ≡ digits_of levels code }
{
    let rest = code / levels;
    let third = rest / levels;
    Three {
        first: code - rest * levels,
        second: rest - third * levels,
        third,
    }
}

// The digits of a grouped code; a division by a number that is known is no division.
pub fn digits(levels: u32, code: u32) -> Three
    requires { 0 < levels }
    ensures { result ≡ digits_of levels code }
{
    match levels {
        3 => split(3, code),
        5 => split(5, code),
        9 => split(9, code),
        _ => split(levels, code),
    }
}

// The base for an index's remainder by 3.
fn base(remainder: u32) -> u32
    requires { remainder < 3 }
    ensures { result ≡ get_or bases remainder 0 }
{
    match remainder {
        0 => 0x0200_0000,
        1 => 0x0196_5FEA,
        _ => 0x0142_8A30,
    }
}

// The factor of a scale index.
pub fn factor(index: u32) -> u32
    requires { index < 64 }
    ensures { result ≡ factor_of index }
{
    if index == 63 {
        return 0;
    }
    let shift = index / 3;
    (base(index % 3) + ((1u32 << shift) >> 1u32)) >> shift
}

#[tactic(auto, using(tables::specs::Laws::sized), unfolding(crate::specs::Sample::adj_of))]
pub fn adj(q: usize) -> u32
    requires { (0 < q) × (q < 18) }
    ensures { result ≡ adj_of (levels_of q) }
{
    (tables::levels(q) + 1) / 2 - 1
}

// 65536 div (levels + 1), by shifts where the levels and 1 are a power of 2.
#[tactic(auto, unfolding(crate::specs::Sample::scale_of, tables::specs::Standard::levels_of, tables::specs::Standard::quantisation_of, tables::specs::Standard::classes))]
pub fn scale(q: usize) -> u32
    requires { (0 < q) × (q < 18) }
    ensures { result ≡ scale_of (levels_of q) }
{
    match q {
        1 => 16384,
        2 => 10922,
        4 => 6553,
        _ => 65536u32 >> tables::code_bits(q),
    }
}

fn centred(adj: u32, scale: u32, code: u32) -> i32
    requires { (adj ≤ 65535) × (scale ≤ 65535) × (code ≤ 65535) × (nat_abs (centred_by adj scale code) ≤ 52424) }
    ensures { result ≡ centred_by adj scale code }
{
    (adj as i32 - code as i32) * scale as i32
}

fn scaled(val: i32, high: u32, low: u32) -> i32
    requires { (nat_abs val ≤ 52424) × (high ≤ 8192) × (low ≤ 4095) }
    ensures { result ≡ scaled_by val high low }
{
    (val * high as i32 + ((val * low as i32 + 2048) >> 12)) >> 12
}

// One sample: `adj` and `scale` of its quantiser, its code, its scale factor.
pub fn sample(adj: u32, scale: u32, code: u32, factor: u32) -> i32
    requires { (adj ≤ 65535) × (scale ≤ 65535) × (code ≤ 65535) × (nat_abs (centred_by adj scale code) ≤ 52424) × (factor ≤ 33554432) }
    ensures value { result ≡ scaled_by (centred_by adj scale code) (factor / 4096) (factor % 4096) }
    ensures small { nat_abs result ≤ 104848 }
{
    scaled(centred(adj, scale, code), factor / 4096, factor % 4096)
}
