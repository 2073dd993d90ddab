// From the side information to samples: `read_samples` and the granules of `decode_frame` in the source.
#![tactic(auto)]

ghost use Rattle.std.specs.Prelude.{◌≡◌, ◌≤◌, ◌<◌};
ghost use Rattle.grammar.specs.Reads.{run, taken};
ghost use Rattle.ground.specs.Stores.{three};
ghost use Rattle.side.specs.Info.{side_in};
ghost use Rattle.codes.specs.Three.{cut_in_three};
ghost use Rattle.codes.specs.Frame.{singles_of, codes_of, three_samples_of, place_of, copied, sample_band_of, samples_from};

use buffer::{Reader, Taken};
use samples::Three;
use side::SideInfo;

// Three codes of one place.
fn read_singles(reader: Reader, s: &[u8], bits: usize) -> Taken<Three>
    ensures { result ≡ run (singles_of bits) s.now reader }
{
    let a = reader.field(s, bits);
    let b = a.next.field(s, bits);
    let c = b.next.field(s, bits);
    Taken {
        value: Three {
            first: a.value,
            second: b.value,
            third: c.value,
        },
        next: c.next,
    }
}

// The three numbers of `bits` bits in one of three times as many.
fn cut_in_three(value: u32, bits: usize) -> Three
    requires { bits ≤ 10 }
    ensures { result ≡ cut_in_three value bits }
{
    let size = 1u32 << bits;
    let rest = value >> bits;
    Three {
        first: rest >> bits,
        second: rest % size,
        third: value % size,
    }
}

// Where the codes are narrow and all there, one read takes the three of them.
fn read_three(reader: Reader, s: &[u8], bits: usize) -> Taken<Three>
    ensures { result ≡ run (singles_of bits) s.now reader }
{
    if bits <= 10 {
        let f = reader.field(s, 3 * bits);
        let next = f.next;
        if next.at.0 != reader.at.0 {
            let value = cut_in_three(f.value, bits);
            return Taken { value, next };
        }
    }
    read_singles(reader, s, bits)
}

fn read_codes(reader: Reader, s: &[u8], q: usize) -> Taken<Three>
    requires { q < 18 }
    ensures { result ≡ run (codes_of q) s.now reader }
{
    let bits = tables::code_bits(q);
    if tables::grouped(q) {
        let f = reader.field(s, bits);
        let value = samples::digits(tables::levels(q), f.value);
        return Taken {
            value,
            next: f.next,
        };
    }
    read_three(reader, s, bits)
}

fn read_samples(
    reader: Reader,
    s: &[u8],
    q: usize,
    factor: u32,
    place: usize,
    sample: &mut [i32; 192],
) -> Reader
    requires { (0 < q) × (q < 18) × (factor ≤ 33554432) × (place < 64) }
    ensures { taken sample.new result ≡ run (three_samples_of q factor place sample.old) s.now reader }
{
    let c = read_codes(reader, s, q);
    let codes = c.value;
    let adj = samples::adj(q);
    let scale = samples::scale(q);
    let x = samples::sample(adj, scale, codes.first, factor);
    let y = samples::sample(adj, scale, codes.second, factor);
    let z = samples::sample(adj, scale, codes.third, factor);
    side::store_three(sample, place, x, y, z);
    c.next
}

fn read_place(
    reader: Reader,
    s: &[u8],
    side: &SideInfo,
    part: usize,
    place: usize,
    sample: &mut [i32; 192],
) -> Reader
    requires { (part < 3) × (place < 64) }
    ensures { taken sample.new result ≡ run (place_of (side_in side.now) part place sample.old) s.now reader }
{
    let q = side.quant[place] as usize;
    if q == 0 {
        return reader;
    }
    let at = part * 64 + place;
    read_samples(reader, s, q, side.factor[at], place, sample)
}

// The right channel takes the left's finished samples.
fn copy_band(sample: &mut [i32; 192], sb: usize)
    requires { sb < 32 }
    ensures { sample.new ≡ copied sb sample.old }
{
    let x = sample[sb];
    let y = sample[sb + 64];
    let z = sample[sb + 128];
    side::store_three(sample, sb + 32, x, y, z);
}

fn sample_band(
    reader: Reader,
    s: &[u8],
    side: &SideInfo,
    part: usize,
    sb: usize,
    sample: &mut [i32; 192],
) -> Reader
    requires { (part < 3) × (sb < 32) }
    ensures { taken sample.new result
        ≡ run (sample_band_of (side_in side.now) part side.now.layout.bound sb sample.old) s.now reader }
{
    let left = read_place(reader, s, side, part, sb, sample);
    if sb < side.layout.bound {
        return read_place(left, s, side, part, sb + 32, sample);
    }
    copy_band(sample, sb);
    left
}

// The samples of a granule: slot k, channel c, subband sb at 64 k + 32 c + sb. What is not written stays: lend zeros.
pub fn read_granule(
    reader: Reader,
    s: &[u8],
    side: &SideInfo,
    part: usize,
    sample: &mut [i32; 192],
) -> Reader
    requires { part < 3 }
    ensures { let layout = side.now.layout in
        taken sample.new result
        ≡ run (samples_from (side_in side.now) part layout.bound layout.limit sample.old) s.now reader }
{
    let mut next = reader;
    for sb in 0..side.layout.limit {
        next = sample_band(next, s, side, part, sb, sample);
    }
    next
}
