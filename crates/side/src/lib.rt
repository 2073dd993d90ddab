// What stands before a frame's codes: `read_allocation` and the first half of `decode_frame` in the source.
#![tactic(auto)]

ghost use Rattle.std.specs.Prelude.{◌≡◌, ◌≤◌, ◌<◌};
ghost use Rattle.std.specs.Prelude.{ℕ, List};
ghost use Rattle.grammar.specs.Reads.{Reads, run, taken};
ghost use Rattle.ground.specs.Stores.{three};
ghost use Rattle.side.specs.Bands.{bands, channels_of, allocated_of};
ghost use Rattle.side.specs.Callers.{TakesPlaces, ReadsAs};
ghost use Rattle.side.specs.Side.{cut_of, allocation_of, allocation_band_of, allocations_of, selector_of, selectors_of, factors_of, place_factors_of, scale_factors_of, side_of};
ghost use Rattle.side.specs.Info.{side_in};

mod info;

use buffer::{Reader, Taken};
pub use info::{Layout, SideInfo};
use tables::QuantiserTable;

// The bound, no higher than the limit.
pub fn cut(bound: usize, limit: usize) -> usize
    ensures { result ≡ cut_of bound limit }
{
    bound.min(limit)
}

// One allocation, for the place in one channel.
fn read_allocation(
    reader: Reader,
    s: &[u8],
    quantisers: &QuantiserTable,
    table: usize,
    sb: usize,
    place: usize,
    quant: &mut [u8; 64],
) -> Reader
    requires { (table < 2) × (sb < 32) × (place < 64) }
    ensures { taken quant.new result ≡ run (allocation_of table sb place quant.old) s.now reader }
{
    let f = reader.field(s, tables::allocation_bits(table, sb));
    quant[place] = tables::quantiser(quantisers, table, sb, f.value as usize);
    f.next
}

// One subband: below the bound an allocation for each channel, from there on one for both.
fn allocation_band(
    reader: Reader,
    s: &[u8],
    quantisers: &QuantiserTable,
    layout: Layout,
    sb: usize,
    quant: &mut [u8; 64],
) -> Reader
    requires { (layout.table < 2) × (sb < 32) }
    ensures { taken quant.new result ≡ run (allocation_band_of layout.table layout.bound sb quant.old) s.now reader }
{
    let left = read_allocation(reader, s, quantisers, layout.table, sb, sb, quant);
    if sb < layout.bound {
        return read_allocation(left, s, quantisers, layout.table, sb, sb + 32, quant);
    }
    quant[sb + 32] = quant[sb];
    left
}

fn allocations(reader: Reader, s: &[u8], layout: Layout, quant: &mut [u8; 64]) -> Reader
    requires { layout.table < 2 }
    ensures { taken quant.new result
        ≡ run (allocations_of layout.table layout.bound layout.limit quant.old) s.now reader }
{
    let quantisers = tables::allocation_quantisers();
    let mut next = reader;
    for sb in 0..layout.limit {
        next = allocation_band(next, s, &quantisers, layout, sb, quant);
    }
    next
}

// The fields of a place, where it is allocated.
fn where_allocated<T, F: Fn(Reader, usize, &mut T) -> Reader>(
    reader: Reader,
    quant: &[u8; 64],
    place: usize,
    read: &F,
    fields: &mut T,
) -> Reader
    requires { (place < 64) × TakesPlaces (F.pre read.now) }
    ensures { (s : List ℕ) (one : ℕ → T → Reads T) → ReadsAs (F.post read.now) one s
        → taken fields.new result ≡ run (allocated_of quant.now one place fields.old) s reader }
{
    if quant[place] == 0 {
        return reader;
    }
    read(reader, place, fields)
}

// A subband: the left channel's place, and unless mono the right's.
fn each_channel<T, F: Fn(Reader, usize, &mut T) -> Reader>(
    reader: Reader,
    quant: &[u8; 64],
    mono: bool,
    sb: usize,
    read: &F,
    fields: &mut T,
) -> Reader
    requires { (sb < 32) × TakesPlaces (F.pre read.now) }
    ensures { (s : List ℕ) (one : ℕ → T → Reads T) → ReadsAs (F.post read.now) one s
        → taken fields.new result ≡ run (channels_of mono (allocated_of quant.now one) sb fields.old) s reader }
{
    let left = where_allocated(reader, quant, sb, read, fields);
    if mono {
        return left;
    }
    where_allocated(left, quant, sb + 32, read, fields)
}

// The fields of each allocated place below the limit, as `read` reads one.
fn each_allocated<T, F: Fn(Reader, usize, &mut T) -> Reader>(
    reader: Reader,
    quant: &[u8; 64],
    layout: Layout,
    read: F,
    fields: &mut T,
) -> Reader
    requires { TakesPlaces (F.pre read) }
    ensures { (s : List ℕ) (one : ℕ → T → Reads T) → ReadsAs (F.post read) one s
        → taken fields.new result
        ≡ run (bands (channels_of layout.mono (allocated_of quant.now one)) layout.limit fields.old) s reader }
{
    let mut next = reader;
    for sb in 0..layout.limit {
        next = each_channel(next, quant, layout.mono, sb, &read, fields);
    }
    next
}

// The three values of a place: its factors, one for each part of the frame, or its samples, one for each slot of a granule.
pub fn store_three<T: Copy>(values: &mut [T; 192], place: usize, a: T, b: T, c: T)
    requires { place < 64 }
    ensures { values.new ≡ three place a b c values.old }
{
    values[place] = a;
    values[place + 64] = b;
    values[place + 128] = c;
}

// The scale factors of a place, as its selector says.
fn read_factors(
    reader: Reader,
    s: &[u8],
    selector: u8,
    place: usize,
    factor: &mut [u32; 192],
) -> Reader
    requires { place < 64 }
    ensures { taken factor.new result ≡ run (factors_of selector place factor.old) s.now reader }
{
    let x = reader.field(s, 6);
    let a = samples::factor(x.value);
    if selector == 2 {
        store_three(factor, place, a, a, a);
        return x.next;
    }
    let y = x.next.field(s, 6);
    let b = samples::factor(y.value);
    if selector == 0 {
        let z = y.next.field(s, 6);
        store_three(factor, place, a, b, samples::factor(z.value));
        return z.next;
    }
    if selector == 1 {
        store_three(factor, place, a, a, b);
        return y.next;
    }
    store_three(factor, place, a, b, b);
    y.next
}

fn read_selector(reader: Reader, s: &[u8], place: usize, selector: &mut [u8; 64]) -> Reader
    requires { place < 64 }
    ensures { taken selector.new result ≡ run (selector_of place selector.old) s.now reader }
{
    let f = reader.field(s, 2);
    selector[place] = f.value as u8;
    f.next
}

// What stands before the codes, and the reader after it.
pub fn read_side(reader: Reader, s: &[u8], layout: Layout) -> Taken<SideInfo>
    requires { layout.table < 2 }
    ensures side { taken (side_in result.value) result.next
        ≡ run (side_of layout.mono layout.table layout.bound layout.limit) s.now reader }
    ensures layout { result.value.layout ≡ layout }
{
    let mut quant = [0u8; 64];
    let mut selector = [0u8; 64];
    let mut factor = [0u32; 192];
    let allocated = allocations(reader, s, layout, &mut quant);
    let selected = each_allocated(
        allocated,
        &quant,
        layout,
        |reader: Reader, place: usize, selector: &mut [u8; 64]| read_selector(
            reader, s, place, selector,
        ),
        &mut selector,
    );
    let scaled = each_allocated(
        selected,
        &quant,
        layout,
        |reader: Reader, place: usize, factor: &mut [u32; 192]| read_factors(
            reader,
            s,
            selector[place],
            place,
            factor,
        ),
        &mut factor,
    );
    Taken {
        value: SideInfo {
            layout,
            quant,
            factor,
        },
        next: scaled,
    }
}
