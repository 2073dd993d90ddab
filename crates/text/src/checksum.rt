// A checksum of a frame's samples, so that every bit of them can be compared in one number: FNV-1a, 64 bits.
#![tactic(auto, unfolding(listing::specs::Fnv::mixed_of, listing::specs::Fnv::word_of, listing::specs::Fnv::pattern_of, listing::specs::Fnv::sum_of))]

ghost use Rattle.std.specs.Prelude.{◌≡◌, length};
ghost use Rattle.listing.specs.Fnv.{times_prime, mixed_of, word_of, pattern_of, sum_of};

// h times FNV's prime, which is 2^40 + 435, modulo 2^64.
fn times_prime(h: u64) -> u64
    ensures { result ≡ times_prime h }
{
    h.wrapping_mul(1099511628211)
}

fn mixed(h: u64, byte: u8) -> u64
    ensures { result ≡ mixed_of h byte }
{
    times_prime(h ^ u64::from(byte))
}

// Low byte first.
fn word(h: u64, bits: u32) -> u64
    ensures { result ≡ word_of h bits }
{
    let [one, two, three, four] = bits.to_le_bytes();
    mixed(mixed(mixed(mixed(h, one), two), three), four)
}

fn pattern(x: f32) -> u32
    ensures { result ≡ pattern_of x }
{
    if x.is_nan() {
        return 2143289344;
    }
    x.to_bits()
}

pub fn sum(samples: &[f32]) -> u64
    ensures { result ≡ sum_of samples.now (length samples.now) }
{
    let mut h = 14695981039346656037;
    for x in samples {
        h = word(h, pattern(*x));
    }
    h
}
