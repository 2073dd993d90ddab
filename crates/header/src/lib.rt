// One header attempt: audio.rs's `decode_header`, with 01's numbers 1 to 6, and 13 (02, E3), in place of a size of 0.
#![tactic(auto)]

ghost use Rattle.std.specs.Prelude.{◌≡◌, ◌<◌};
ghost use Rattle.grammar.specs.Reads.{run, taken};
ghost use Rattle.header.specs.Header.{ident_of, rates_of, mode_of, bound_by, check_of, bound_of, size_of, differs, after_mode_of, rest_of, fields_of, settled, unsought_of, seek_of, sync_of, start_of, header_of};

use buffer::{BytePos, Reader, Sync, Taken};
use readings::Reading;
use refusal::Refusal;
use tables::MODE_MONO;

const FRAME_SYNC: u32 = 0x7ff;

const MPEG_1: u32 = 3;

const LAYER_II: u32 = 2;

const MODE_JOINT_STEREO: u32 = 1;

// The bytes of data that an accepted header can announce.
pub const LEAST_DATA: usize = 90;

pub const MOST_DATA: usize = 1725;

// What frames are read by: the choices of the opening, and the format that the first accepted header fixes. Sample-rate code 3
// means that there is none yet.
#[derive(Clone, Copy)]
pub struct Format {
    pub samplerate: usize,
    pub bitrate: usize,
    pub mode: u32,
    pub reading: Reading,
    pub bound: usize,
}

// An accepted header: its format, and its data size in bytes.
#[derive(Clone, Copy)]
pub struct Accepted {
    pub format: Format,
    pub size: usize,
}

// What an attempt gives, and the byte of the sync's FF: the stream's length where there is none, the aligned start where none was sought.
#[derive(Clone, Copy)]
pub struct Attempt {
    pub header: Result<Accepted, Refusal>,
    pub sync: BytePos,
    pub next: Reader,
}

// Why there is no sync, and where that leaves the reader. `sync` is as an attempt has it.
#[derive(Clone, Copy)]
pub struct Unsynced {
    pub refusal: Refusal,
    pub sync: BytePos,
    pub next: Reader,
}

// Refused before anything was sought.
fn unsought(refusal: Refusal, reader: Reader) -> Unsynced
    ensures { result ≡ unsought_of refusal reader }
{
    Unsynced {
        refusal,
        sync: reader.at.byte_after(),
        next: reader,
    }
}

// The byte of the FF, and the place after the 11 ones.
fn seek(s: &[u8], reader: Reader) -> Result<Taken<BytePos>, Unsynced>
    ensures { result ≡ seek_of s.now reader }
{
    let found = match reader.find_frame_sync(s) {
        Ok(found) => found,
        Err(refusal) => return Err(unsought(refusal, reader)),
    };
    match found {
        Sync::Found { sync, next, .. } => Ok(Taken { value: sync, next }),
        Sync::Missing { sync, next, .. } => Err(Unsynced {
            refusal: Refusal::NoSync,
            sync,
            next,
        }),
    }
}

fn sync(s: &[u8], reader: Reader) -> Result<Taken<BytePos>, Unsynced>
    ensures { result ≡ sync_of s.now reader }
{
    let begin = reader.at.byte();
    let ones = reader.field(s, 11);
    let next = ones.next;
    if ones.value == FRAME_SYNC {
        return Ok(Taken { value: begin, next });
    }
    seek(s, next)
}

fn find_start(s: &[u8], reader: Reader) -> Result<Taken<BytePos>, Unsynced>
    ensures { result ≡ start_of s.now reader }
{
    match reader.has(s, 48) {
        Ok(true) => {}
        Ok(false) => return Err(unsought(Refusal::NoHeader, reader)),
        Err(refusal) => return Err(unsought(refusal, reader)),
    }
    match reader.skip_bytes(s, 0) {
        Ok(zeros) => sync(s, zeros.next),
        Err(refusal) => Err(unsought(refusal, reader)),
    }
}

// A refusal as the fields are read, and the reader behind the field that decided it.
#[derive(Clone, Copy)]
pub struct Stopped {
    pub refusal: Refusal,
    pub next: Reader,
}

// Version and layer, and whether a check word follows the header.
fn read_ident(s: &[u8], reader: Reader) -> Result<Taken<bool>, Stopped>
    ensures { settled result ≡ run ident_of s.now reader }
{
    let version = reader.field(s, 2);
    let layer = version.next.field(s, 2);
    let protection = layer.next.field(s, 1);
    let next = protection.next;
    if (version.value == MPEG_1) & (layer.value == LAYER_II) {
        let value = protection.value == 0;
        return Ok(Taken { value, next });
    }
    Err(Stopped {
        refusal: Refusal::OtherLayer,
        next,
    })
}

// The indexes of bit rate and sample rate, and the padding byte.
#[derive(Clone, Copy)]
pub struct Rates {
    pub bitrate: usize,
    pub samplerate: usize,
    pub padding: usize,
}

fn read_rates(s: &[u8], reader: Reader) -> Result<Taken<Rates>, Stopped>
    ensures { settled result ≡ run rates_of s.now reader }
{
    let bitrate = reader.field(s, 4);
    if (bitrate.value == 0) | (bitrate.value == 15) {
        return Err(Stopped {
            refusal: Refusal::NoBitRate,
            next: bitrate.next,
        });
    }
    let samplerate = bitrate.next.field(s, 2);
    if samplerate.value == 3 {
        return Err(Stopped {
            refusal: Refusal::NoSampleRate,
            next: samplerate.next,
        });
    }
    let padding = samplerate.next.field(s, 1);
    let value = Rates {
        bitrate: (bitrate.value - 1) as usize,
        samplerate: samplerate.value as usize,
        padding: padding.value as usize,
    };
    Ok(Taken {
        value,
        next: padding.next,
    })
}

// Past the private bit.
fn read_mode(s: &[u8], reader: Reader) -> Taken<u32>
    ensures { result ≡ run mode_of s.now reader }
{
    let private = reader.field(s, 1);
    private.next.field(s, 2)
}

fn bound_by(mode: u32, extension: usize) -> usize
    requires { extension < 4 }
    ensures { result ≡ bound_by mode extension }
{
    match mode {
        MODE_JOINT_STEREO => 4 * (extension + 1),
        MODE_MONO => 0,
        _ => 32,
    }
}

fn pass_check(s: &[u8], reader: Reader, check: bool) -> Reader
    ensures { taken 0 result ≡ run (check_of check) s.now reader }
{
    if check {
        let word = reader.field(s, 16);
        return word.next;
    }
    reader
}

// Past the four flag bits and the check word.
fn read_bound(s: &[u8], reader: Reader, mode: u32, check: bool) -> Taken<usize>
    ensures { result ≡ run (bound_of mode check) s.now reader }
{
    let extension = reader.field(s, 2);
    let flags = extension.next.field(s, 4);
    let next = pass_check(s, flags.next, check);
    Taken {
        value: bound_by(mode, extension.value as usize),
        next,
    }
}

// The bytes after the header and the check word.
fn data_size(rates: Rates, check: bool) -> usize
    requires { (rates.bitrate < 14) × (rates.samplerate < 3) × (rates.padding < 2) }
    ensures { result ≡ size_of rates.bitrate rates.samplerate rates.padding check }
{
    let kbps = tables::kbps(rates.bitrate);
    let frame = (144000 * kbps / tables::rate(rates.samplerate)) as usize + rates.padding;
    if check {
        return frame - 6;
    }
    frame - 4
}

fn other_format(known: Format, rates: Rates, mode: u32) -> bool
    ensures { result ≡ differs known rates.bitrate rates.samplerate mode }
{
    (known.samplerate != 3)
        & ((known.bitrate != rates.bitrate)
            | (known.samplerate != rates.samplerate)
            | (known.mode != mode))
}

// 13, else 6, else none.
fn refused_after_mode(known: Format, rates: Rates, mode: u32) -> Option<Refusal>
    requires { rates.bitrate < 14 }
    ensures { result ≡ after_mode_of known rates.bitrate rates.samplerate mode }
{
    if readings::barred(known.reading, rates.bitrate, mode) {
        return Some(Refusal::BarredRate);
    }
    if other_format(known, rates, mode) {
        return Some(Refusal::OtherFormat);
    }
    None
}

fn read_rest(
    s: &[u8],
    reader: Reader,
    known: Format,
    check: bool,
    rates: Rates,
) -> Result<Taken<Accepted>, Stopped>
    requires { (rates.bitrate < 14) × (rates.samplerate < 3) × (rates.padding < 2) }
    ensures { settled result ≡ run (rest_of known check rates.bitrate rates.samplerate rates.padding) s.now reader }
{
    let mode = read_mode(s, reader);
    if let Some(refusal) = refused_after_mode(known, rates, mode.value) {
        return Err(Stopped {
            refusal,
            next: mode.next,
        });
    }
    let bound = read_bound(s, mode.next, mode.value, check);
    let format = Format {
        samplerate: rates.samplerate,
        bitrate: rates.bitrate,
        mode: mode.value,
        reading: known.reading,
        bound: bound.value,
    };
    let size = data_size(rates, check);
    Ok(Taken {
        value: Accepted { format, size },
        next: bound.next,
    })
}

fn read_fields(s: &[u8], reader: Reader, known: Format) -> Result<Taken<Accepted>, Stopped>
    ensures { settled result ≡ run (fields_of known) s.now reader }
{
    let check = read_ident(s, reader)?;
    let rates = read_rates(s, check.next)?;
    read_rest(s, rates.next, known, check.value, rates.value)
}

pub fn decode_header(s: &[u8], reader: Reader, known: Format) -> Attempt
    ensures { result ≡ header_of s.now reader known }
{
    let start = match find_start(s, reader) {
        Ok(start) => start,
        Err(none) => {
            return Attempt {
                header: Err(none.refusal),
                sync: none.sync,
                next: none.next,
            };
        }
    };
    let sync = start.value;
    match read_fields(s, start.next, known) {
        Ok(read) => Attempt {
            header: Ok(read.value),
            sync,
            next: read.next,
        },
        Err(stopped) => Attempt {
            header: Err(stopped.refusal),
            sync,
            next: stopped.next,
        },
    }
}
