// The bytes of a RIFF WAVE file: a header of 44 bytes, then 16-bit stereo.
// A pattern's sign has the weight 2^31 = 2147483648, its exponent's field 2^23 = 8388608.
#![tactic(auto)]

ghost use Rattle.std.specs.Prelude.{◌≡◌, ◌+◌, ◌*◌, ◌/◌, ◌%◌, ◌^◌, ◌<◌, ◌≤◌, min, length};
ghost use Rattle.riff.specs.Level.{half_up, level_of, bits16, pcm_of, words_of};
ghost use Rattle.riff.specs.Header.{put_at, wave_header_of};

// 1.0, in steps of 1/32768.
const FULL: u32 = 32768;

// What a NaN gives: it is no number.
const SILENCE: u32 = 0;

// The header, with zeros where its numbers go: at 4 the length of what follows, at 24 the samples a second, at 28 the bytes
// a second, at 40 the length of the samples.
const BLANK: [u8; 44] =
    *b"RIFF\0\0\0\0WAVEfmt \x10\0\0\0\x01\0\x02\0\0\0\0\0\0\0\0\0\x04\0\x10\0data\0\0\0\0";

// The exponent's field of a bit pattern.
fn exponent(bits: u32) -> u32
    ensures { result ≡ bits % 2147483648 / 8388608 }
{
    bits % 2147483648 / 8388608
}

// The 24 digits of a bit pattern, with the leading one.
fn significand(bits: u32) -> u32
    ensures { result ≡ 8388608 + bits % 8388608 }
{
    let below = bits % 8388608;
    8388608 + below
}

// digits / (2 * half), to the nearest whole number: a half is added, then the fraction is cut.
fn nearest(digits: u32, half: u32) -> u32
    requires { (digits < 16777216) × (0 < half) × (half ≤ 8388608) }
    ensures { result ≡ (digits + half) / (2 * half) }
{
    let raised = digits + half;
    raised / (2 * half)
}

// How many steps of 1/32768 a float is away from zero. At field 127 the leading digit is 1.0, with 23 digits below it, and 1.0 is
// 2^15 steps: so it is digits / 2^(135 - field) steps. Below field 111 that is less than a half, from field 127 on 1.0 or more.
fn steps(field: u32, digits: u32) -> u32
    requires { (field < 256) × (8388608 ≤ digits) × (digits < 16777216) }
    ensures { result ≡ min (half_up (digits * 2 ^ field) (2 ^ 135)) 32768 }
{
    if field < 111 {
        return 0;
    }
    if field < 127 {
        return nearest(digits, 1u32 << (134 - field));
    }
    FULL
}

// The 16 bits of a sample. The bits of a NaN are not defined, so a NaN is told apart first.
pub fn word(x: f32) -> u32
    ensures { result ≡ bits16 (level_of x) }
{
    if x.is_nan() {
        return SILENCE;
    }
    let bits = x.to_bits();
    let away = steps(exponent(bits), significand(bits));
    if bits < 2147483648 {
        return away.min(32767);
    }
    (65536 - away) % 65536
}

// The samples, two bytes each, low byte first.
pub fn write_samples(values: &[f32], bytes: &mut [u8])
    requires { length bytes.old ≡ 2 * length values.now }
    ensures { bytes.new ≡ pcm_of values.now }
{
    for (i, x) in values.iter().enumerate() {
        let [low, high] = (word(*x) as u16).to_le_bytes();
        bytes[2 * i] = low;
        bytes[2 * i + 1] = high;
    }
}

// The samples as a converter takes them, 16 bits each.
pub fn write_words(values: &[f32], words: &mut [u16])
    requires { length words.old ≡ length values.now }
    ensures { words.new ≡ words_of values.now }
{
    for (i, x) in values.iter().enumerate() {
        words[i] = word(*x) as u16;
    }
}

// n in four bytes from `at` on, low byte first.
#[tactic(auto, using(crate::proofs::Stored::stored))]
fn put(bytes: &mut [u8; 44], at: usize, n: u32)
    requires { at ≤ 40 }
    ensures { bytes.new ≡ put_at bytes.old at n }
{
    bytes[at..at + 4].copy_from_slice(&n.to_le_bytes());
}

// The header of a file with that many frames, at that many samples a second.
pub fn header(frames: u32, rate: u32) -> [u8; 44]
    requires { (frames ≤ 900000) × (rate ≤ 1000000) }
    ensures bytes { result ≡ wave_header_of frames rate }
    ensures len { 44 ≡ length result }
{
    let data = 4608 * frames;
    let mut bytes = BLANK;
    put(&mut bytes, 4, 36 + data);
    put(&mut bytes, 24, rate);
    put(&mut bytes, 28, 4 * rate);
    put(&mut bytes, 40, data);
    bytes
}
