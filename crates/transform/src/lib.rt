// `idct36`: the 32 samples of a slot become the 64 values that it writes into the ring.
// The transform at each width goes by that of half the width; the stages below are its widths from 2 to 32.
#![tactic(auto)]

ghost use Rattle.std.specs.Prelude.{◌≡◌, ℕ, ◌+◌, ◌≤◌, ◌<◌, length, take, Float};
ghost use Rattle.transform.specs.Transform.{at, halving_factors, transform, sums_of, differences_of, joined_at, woven_of, usual_factor, other_factor, Small, floats, slot_at, slot_of, idct};

// The factors of the differences at width 32, 8 and 4, as in the source.
const FACTORS_32: [f32; 16] = [
    0.500602998235,
    0.505470959898,
    0.515447309923,
    0.53104259109,
    0.553103896034,
    0.582934968206,
    0.622504123036,
    0.674808341455,
    0.744536271002,
    0.839349645416,
    0.972568237862,
    1.16943993343,
    1.48416461631,
    2.05778100995,
    3.40760841847,
    10.1900081235,
];

const FACTORS_8: [f32; 4] = [
    0.509795579104,
    0.601344886935,
    0.899976223136,
    2.56291544774,
];

const FACTORS_4: [f32; 2] = [0.541196100146, 1.30656296488];

// The first factor of width 16: in the half of the differences it is another than in the half of the sums.
const USUAL_FACTOR: f32 = 0.502419286188;

const OTHER_FACTOR: f32 = 0.500602998235;

// The factors of width 16, by their first one.
#[tactic(auto, unfolding(crate::specs::Transform::halving_factors))]
fn factors_16(first: f32) -> [f32; 8]
    ensures { result ≡ halving_factors first 3 }
{
    [
        first,
        0.52249861494,
        0.566944034816,
        0.64682178336,
        0.788154623451,
        1.06067768599,
        1.72244709824,
        5.10114861869,
    ]
}

// The sums of mirrored values, and their differences, each times its factor.
fn halve(values: &[f32], factors: &[f32], sums: &mut [f32], differences: &mut [f32])
    requires { (length sums.old + length sums.old ≤ length values.now) × (length differences.old ≡ length sums.old)
        × (length factors.now ≡ length sums.old) × (length sums.old ≤ 16) }
    ensures sums_after { sums.new ≡ sums_of (length sums.old) values.now }
    ensures differences_after { differences.new ≡ differences_of (length sums.old) factors.now values.now }
{
    let half = sums.len();
    for i in 0..half {
        let near = values[i];
        let far = values[half + half - 1 - i];
        sums[i] = near + far;
        differences[i] = (near - far) * factors[i];
    }
}

// The value at i with its neighbour added; the last one stands alone.
fn joined(second: &[f32], i: usize) -> f32
    requires { i < length second.now }
    ensures { result ≡ joined_at (length second.now) second.now i }
{
    if i + 1 < second.len() {
        second[i] + second[i + 1]
    } else {
        second[i]
    }
}

// The first half's values at the even places, and between them the second half's with their neighbours added.
fn weave(first: &[f32], second: &[f32], values: &mut [f32])
    requires { (length second.now ≡ length first.now) × (length first.now + length first.now ≤ length values.old) }
    ensures { take (length first.now + length first.now) values.new ≡ woven_of (length first.now) first.now second.now }
{
    for (i, value) in first.iter().enumerate() {
        values[i + i] = *value;
        values[i + i + 1] = joined(second, i);
    }
}

// The transform at each width, in place, by that of half the width. Below width 16 the two halves of the 32 have the same
// factors, so that what is promised holds for any f.
fn pass2(values: &mut [f32])
    requires { length values.old ≡ 2 }
    ensures { (f : Float) → values.new ≡ transform 1 f f values.old }
{
    let near = values[0];
    let far = values[1];
    values[0] = near + far;
    values[1] = (near - far) * 0.707106781187;
}

fn pass4(values: &mut [f32])
    requires { length values.old ≡ 4 }
    ensures { (f : Float) → values.new ≡ transform 2 f f values.old }
{
    let mut sums = [0.0f32; 2];
    let mut differences = [0.0f32; 2];
    halve(values, &FACTORS_4, &mut sums, &mut differences);
    pass2(&mut sums);
    pass2(&mut differences);
    weave(&sums, &differences, values);
}

fn pass8(values: &mut [f32])
    requires { length values.old ≡ 8 }
    ensures { (f : Float) → values.new ≡ transform 3 f f values.old }
{
    let mut sums = [0.0f32; 4];
    let mut differences = [0.0f32; 4];
    halve(values, &FACTORS_8, &mut sums, &mut differences);
    pass4(&mut sums);
    pass4(&mut differences);
    weave(&sums, &differences, values);
}

// The first factor of this width is given: in the source it is not the same in both halves of the 32.
fn pass16(values: &mut [f32], first: f32)
    requires { length values.old ≡ 16 }
    ensures { values.new ≡ transform 4 first first values.old }
{
    let mut sums = [0.0f32; 8];
    let mut differences = [0.0f32; 8];
    halve(values, &factors_16(first), &mut sums, &mut differences);
    pass8(&mut sums);
    pass8(&mut differences);
    weave(&sums, &differences, values);
}

fn pass32(values: &mut [f32])
    requires { length values.old ≡ 32 }
    ensures { values.new ≡ transform 5 usual_factor other_factor values.old }
{
    let mut sums = [0.0f32; 16];
    let mut differences = [0.0f32; 16];
    halve(values, &FACTORS_32, &mut sums, &mut differences);
    pass16(&mut sums, USUAL_FACTOR);
    pass16(&mut differences, OTHER_FACTOR);
    weave(&sums, &differences, values);
}

fn load(samples: &[i32], values: &mut [f32])
    requires { (length values.old ≡ 32) × (length samples.now ≡ 32) × Small samples.now }
    ensures { values.new ≡ floats samples.now }
{
    for (i, sample) in samples.iter().enumerate() {
        values[i] = *sample as f32;
    }
}

// The value at i of a slot, from the 32 results.
fn spread(results: &[f32], i: usize) -> f32
    requires { (length results.now ≡ 32) × (i < 64) }
    ensures { result ≡ slot_at results.now i }
{
    match i {
        0..=15 => results[16 + i],
        16 => 0.0,
        17..=47 => -results[48 - i],
        _ => -results[i - 48],
    }
}

// The values of a slot up to `to`, of which those below `from` stand there already.
fn spread_part(results: &[f32], slot: &mut [f32], from: usize, to: usize)
    requires { (length results.now ≡ 32) × (length slot.old ≡ 64) × (from ≤ to) × (to ≤ 64)
        × ((k : ℕ) → k < from → at slot.old k ≡ slot_at results.now k) }
    ensures { (k : ℕ) → k < to → at slot.new k ≡ slot_at results.now k }
{
    for i in from..to {
        slot[i] = spread(results, i);
    }
}

// By parts, in each of which the compiler decides all of `spread`'s tests.
fn store(results: &[f32], slot: &mut [f32])
    requires { (length results.now ≡ 32) × (length slot.old ≡ 64) }
    ensures { slot.new ≡ slot_of results.now }
{
    spread_part(results, slot, 0, 16);
    spread_part(results, slot, 16, 17);
    spread_part(results, slot, 17, 48);
    spread_part(results, slot, 48, 64);
}

// The 64 values of a slot from the 32 samples of a channel.
#[tactic(auto, unfolding(crate::specs::Transform::idct))]
pub fn idct36(samples: &[i32], values: &mut [f32])
    requires { (length samples.now ≡ 32) × Small samples.now × (length values.old ≡ 64) }
    ensures { values.new ≡ idct samples.now }
{
    let mut results = [0.0f32; 32];
    load(samples, &mut results);
    pass32(&mut results);
    store(&results, values);
}
