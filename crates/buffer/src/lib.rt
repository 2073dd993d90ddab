// The bit reader: buffer.rs's `Buffer`, with the stream lent for each call and the position by value.
// 01, "From the bytes to a header"; the numbers 8, 10, 11 and 12 of its table.
#![tactic(auto)]

ghost use Rattle.std.specs.Prelude.{◌≡◌, ◌+◌, ◌-◌, ◌*◌, ◌≤◌, ◌<◌, ◌/◌, ◌%◌, ◌^◌, length, Ok};
ghost use Rattle.buffer.specs.Bits.{longest_stream, farthest_bit, bits_value, sync_pair, stop_of, past_of};
ghost use Rattle.buffer.specs.Calls.{byte_pos_of, byte_after_of, bit_of, reader_at, gate, read_of, has_of, ended_of, align_of, skip_of, Fielded, skip_bytes_of, tell_of, search_of};

use refusal::Refusal;

// In bytes: 01's longest stream.
pub const LONGEST_STREAM: usize = 16_777_216;

// In bits: one byte past the end of the longest stream, where a search can leave the reader.
pub const FARTHEST_BIT: usize = 134_217_736;

// A count of bits from the start of the stream.
#[derive(Clone, Copy)]
pub struct BitIndex(pub usize);

// A count of bytes from the start of the stream.
#[derive(Clone, Copy)]
pub struct BytePos(pub usize);

impl BitIndex {
    // The byte that holds this bit.
    pub fn byte(self) -> BytePos
        ensures { result ≡ byte_pos_of self }
    {
        BytePos(self.0 / 8)
    }

    // The first byte that starts at this bit or after it.
    pub fn byte_after(self) -> BytePos
        ensures { result ≡ byte_after_of self }
    {
        BytePos(self.0 / 8 + (self.0 % 8 + 7) / 8)
    }
}

impl BytePos {
    // The byte's first bit.
    pub fn bit(self) -> BitIndex
        requires { self.0 < 2 ^ 61 }
        ensures { result ≡ bit_of self }
    {
        BitIndex(self.0 * 8)
    }
}

// Where reading stands. Past the end is a place too.
#[derive(Clone, Copy)]
pub struct Reader {
    pub at: BitIndex,
}

// What a call took from the stream, and the reader after it.
#[derive(Clone, Copy)]
pub struct Taken<T> {
    pub value: T,
    pub next: Reader,
}

// `sync` is the byte of the FF, or the stream's length where there is none. `skipped` is how many bytes were passed over, from the first
// that the search looked at up to there.
#[derive(Clone, Copy)]
pub enum Sync {
    Found {
        sync: BytePos,
        skipped: usize,
        next: Reader,
    },
    Missing {
        sync: BytePos,
        skipped: usize,
        next: Reader,
    },
}

// How many bits remain from bit `at`: none past the end.
fn remaining(s: &[u8], at: usize) -> usize
    requires { length s.now ≤ longest_stream }
    ensures { result ≡ 8 * length s.now - at }
{
    (s.len() * 8).saturating_sub(at)
}

fn bit(byte: u8, place: usize) -> u32
    requires { place < 8 }
    ensures { result ≡ byte / 2 ^ (7 - place) % 2 }
{
    (byte as u32 >> (7 - place)) % 2
}

// The value of the `count` bits from bit `at`, bit by bit: only near the stream's end, where no 8 bytes are left.
fn last_bits(s: &[u8], at: usize, count: usize) -> u32
    requires { (count ≤ 32) × (count ≤ 8 * length s.now - at) × (at ≤ farthest_bit) }
    ensures { result ≡ bits_value s.now at count }
{
    let mut value: u32 = 0;
    for done in 0..count {
        let place = at + done;
        value = value * 2 + bit(s[place / 8], place % 8);
    }
    value
}

fn wide(x: u8) -> u64
    ensures { (result ≡ x % 256) × (result < 256) }
{
    x as u64
}

// The 4 bytes from byte `i`. The sum goes from the low byte up: so two of them compile to one load.
fn half(s: &[u8], i: usize) -> u64
    requires { i + 4 ≤ length s.now }
    ensures { (result ≡ bits_value s.now (i * 8) 32) × (result < 4294967296) }
{
    wide(s[i + 3]) + wide(s[i + 2]) * 256 + wide(s[i + 1]) * 65536 + wide(s[i]) * 16777216
}

// The 8 bytes from byte `i`.
fn word(s: &[u8], i: usize) -> u64
    requires { i + 8 ≤ length s.now }
    ensures { result ≡ bits_value s.now (i * 8) 64 }
{
    half(s, i + 4) + half(s, i) * 4294967296
}

// The value of the `count` bits from bit `at`: out of 8 bytes at once where they are there, which is the common case and the fast one.
fn bits_at(s: &[u8], at: usize, count: usize) -> u32
    requires { (count ≤ 32) × (count ≤ 8 * length s.now - at) × (at ≤ farthest_bit) }
    ensures { result ≡ bits_value s.now at count }
{
    let i = at / 8;
    if i + 8 <= s.len() {
        let top = word(s, i) << (at % 8);
        return ((top >> 1) >> (63 - count)) as u32;
    }
    last_bits(s, at, count)
}

fn is_sync(a: u8, b: u8) -> bool
    ensures { result ≡ sync_pair a b }
{
    a == 255 && b / 2 == 126
}

// The last byte's place; an empty stream's counts as 0.
fn last_of(s: &[u8]) -> usize
    ensures { result ≡ length s.now - 1 }
{
    s.len().saturating_sub(1)
}

// The first place at or after `from` where a sync pair starts, or else the larger of `from` and the last byte's place.
fn first_pair(s: &[u8], from: BytePos) -> BytePos
    ensures is { result.0 ≡ stop_of s.now from.0 }
    ensures within { (from.0 ≤ result.0) × (result.0 ≤ from.0 + length s.now) }
{
    let last = last_of(s);
    let mut i = from.0;
    let found = loop {
        if last <= i {
            break i;
        }
        if is_sync(s[i], s[i + 1]) {
            break i;
        }
        i += 1;
    };
    BytePos(found)
}

// The bytes from `from` to the stream's end: none past it.
fn bytes_from(s: &[u8], from: BytePos) -> usize
    ensures { result ≡ length s.now - from.0 }
{
    s.len().saturating_sub(from.0)
}

// The first place at or after `from` whose byte differs from `v`, or else the larger of `from` and the stream's length.
fn first_other(s: &[u8], from: BytePos, v: u8) -> BytePos
    ensures is { result.0 ≡ past_of s.now v from.0 }
    ensures within { (from.0 ≤ result.0) × (result.0 ≤ from.0 + length s.now) }
{
    for i in from.0..s.len() {
        if s[i] != v {
            return BytePos(i);
        }
    }
    BytePos(from.0.max(s.len()))
}

impl Reader {
    pub fn new() -> Self
        ensures { result ≡ reader_at 0 }
    {
        Reader { at: BitIndex(0) }
    }

    // What each call asks first: 8, a stream that is too long; then 10, a position that is too far.
    fn admitted(self, s: &[u8]) -> Result<(), Refusal>
        ensures { result ≡ gate s.now self (Ok tt) }
    {
        if LONGEST_STREAM < s.len() {
            return Err(Refusal::LongStream);
        }
        if FARTHEST_BIT < self.at.0 {
            return Err(Refusal::BadState);
        }
        Ok(())
    }

    // Whether `count` more bits are there.
    pub fn has(self, s: &[u8], count: usize) -> Result<bool, Refusal>
        ensures { result ≡ has_of s.now self count }
    {
        self.admitted(s)?;
        Ok(count <= remaining(s, self.at.0))
    }

    // Whether no bit remains.
    pub fn has_ended(self, s: &[u8]) -> Result<bool, Refusal>
        ensures { result ≡ ended_of s.now self }
    {
        self.admitted(s)?;
        Ok(remaining(s, self.at.0) == 0)
    }

    // The next `count` bits as a number, at most 32 of them. Inlined, so that a run of fields calls nothing.
    #[inline]
    pub fn read(self, s: &[u8], count: usize) -> Result<Taken<u32>, Refusal>
        ensures { result ≡ read_of s.now self count }
    {
        self.admitted(s)?;
        let at = self.at.0;
        if 32 < count {
            return Err(Refusal::WideRead);
        }
        if remaining(s, at) < count {
            return Err(Refusal::ShortRead);
        }
        let value = bits_at(s, at, count);
        Ok(Taken {
            value,
            next: Reader {
                at: BitIndex(at + count),
            },
        })
    }

    // A field of `count` bits as the layers above take it: where it is cut off, 0, and the reader stays.
    pub fn field(self, s: &[u8], count: usize) -> Taken<u32>
        ensures { Fielded s.now self count result }
    {
        let Ok(taken) = self.read(s, count) else {
            return Taken {
                value: 0,
                next: self,
            };
        };
        taken
    }

    // To the next byte's start.
    pub fn align(self, s: &[u8]) -> Result<Reader, Refusal>
        ensures { result ≡ align_of s.now self }
    {
        self.admitted(s)?;
        let at = self.at.byte_after().bit();
        Ok(Reader { at })
    }

    // Past `count` bits, if that many remain; any count is allowed.
    pub fn skip(self, s: &[u8], count: usize) -> Result<Reader, Refusal>
        ensures { result ≡ skip_of s.now self count }
    {
        self.admitted(s)?;
        let at = self.at.0;
        if remaining(s, at) < count {
            return Ok(self);
        }
        Ok(Reader {
            at: BitIndex(at + count),
        })
    }

    // The byte position, rounded down.
    pub fn tell(self, s: &[u8]) -> Result<BytePos, Refusal>
        ensures { result ≡ tell_of s.now self }
    {
        self.admitted(s)?;
        Ok(self.at.byte())
    }

    // To the next byte's start, and past the bytes that equal `v`: how many.
    pub fn skip_bytes(self, s: &[u8], v: u8) -> Result<Taken<usize>, Refusal>
        ensures { result ≡ skip_bytes_of s.now self v }
    {
        self.admitted(s)?;
        let from = self.at.byte_after();
        let to = first_other(s, from, v);
        let at = to.bit();
        Ok(Taken {
            value: to.0 - from.0,
            next: Reader { at },
        })
    }

    // To three bits into the second byte of the first sync pair, searched from the byte that holds the position. 02, E2: with the bytes
    // that were passed over.
    pub fn find_frame_sync(self, s: &[u8]) -> Result<Sync, Refusal>
        ensures { result ≡ search_of s.now self }
    {
        self.admitted(s)?;
        let from = self.at.byte();
        let found = first_pair(s, from);
        let after = BytePos(found.0 + 1);
        let next = after.bit();
        if found.0 < last_of(s) {
            return Ok(Sync::Found {
                sync: found,
                skipped: found.0 - from.0,
                next: Reader {
                    at: BitIndex(next.0 + 3),
                },
            });
        }
        Ok(Sync::Missing {
            sync: BytePos(s.len()),
            skipped: bytes_from(s, from),
            next: Reader { at: next },
        })
    }
}
