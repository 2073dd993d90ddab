// The reader's eight calls and the attempt at a header as numbers.
ghost use Rattle.std.specs.Prelude.{◌≡◌};
ghost use Rattle.refusal.specs.Numbers.{number_of};
ghost use Rattle.probe.specs.Answers.{as_numbers, of_holds, of_taken, of_moved, of_told, of_search, of_sync, call_of, answer_into};
ghost use Rattle.probe.specs.Headers.{format_from, of_attempt, header_call_of, stored};

use buffer::{BitIndex, BytePos, Reader, Sync, Taken};
use header::{Attempt, Format};
use refusal::Refusal;

// 01's number, a value, and the bit position afterwards. A search also has the byte that it came to, and the bytes that it passed over.
#[derive(Clone, Copy)]
pub struct Answer {
    pub number: u32,
    pub value: usize,
    pub at: usize,
    pub sync: usize,
    pub skipped: usize,
}

fn given(value: usize, at: usize) -> Answer
    ensures { result ≡ as_numbers 0 value at }
{
    Answer {
        number: 0,
        value,
        at,
        sync: 0,
        skipped: 0,
    }
}

fn refused(refusal: Refusal, at: usize) -> Answer
    ensures { result ≡ as_numbers (number_of refusal) 0 at }
{
    Answer {
        number: refusal.number(),
        value: 0,
        at,
        sync: 0,
        skipped: 0,
    }
}

fn of_holds(at: usize, h: Result<bool, Refusal>) -> Answer
    ensures { result ≡ of_holds at h }
{
    match h {
        Ok(true) => given(1, at),
        Ok(false) => given(0, at),
        Err(refusal) => refused(refusal, at),
    }
}

fn of_read(at: usize, x: Result<Taken<u32>, Refusal>) -> Answer
    ensures { result ≡ of_taken at x }
{
    match x {
        Ok(taken) => given(taken.value as usize, taken.next.at.0),
        Err(refusal) => refused(refusal, at),
    }
}

fn of_moved(at: usize, m: Result<Reader, Refusal>) -> Answer
    ensures { result ≡ of_moved at m }
{
    match m {
        Ok(next) => given(0, next.at.0),
        Err(refusal) => refused(refusal, at),
    }
}

fn of_skipped(at: usize, k: Result<Taken<usize>, Refusal>) -> Answer
    ensures { result ≡ of_taken at k }
{
    match k {
        Ok(taken) => given(taken.value, taken.next.at.0),
        Err(refusal) => refused(refusal, at),
    }
}

fn of_told(at: usize, t: Result<BytePos, Refusal>) -> Answer
    ensures { result ≡ of_told at t }
{
    match t {
        Ok(byte) => given(byte.0, at),
        Err(refusal) => refused(refusal, at),
    }
}

fn of_search(f: Sync) -> Answer
    ensures { result ≡ of_search f }
{
    match f {
        Sync::Found {
            sync,
            skipped,
            next,
        } => Answer {
            number: 0,
            value: 1,
            at: next.at.0,
            sync: sync.0,
            skipped,
        },
        Sync::Missing {
            sync,
            skipped,
            next,
        } => Answer {
            number: 0,
            value: 0,
            at: next.at.0,
            sync: sync.0,
            skipped,
        },
    }
}

fn of_sync(at: usize, f: Result<Sync, Refusal>) -> Answer
    ensures { result ≡ of_sync at f }
{
    match f {
        Ok(found) => of_search(found),
        Err(refusal) => refused(refusal, at),
    }
}

fn reader_call(call: u32, stream: &[u8], at: usize, argument: usize) -> Answer
    ensures { result ≡ call_of call stream.now at argument }
{
    let reader = Reader { at: BitIndex(at) };
    match call {
        0 => of_holds(at, reader.has(stream, argument)),
        1 => of_holds(at, reader.has_ended(stream)),
        2 => of_read(at, reader.read(stream, argument)),
        3 => of_moved(at, reader.align(stream)),
        4 => of_moved(at, reader.skip(stream, argument)),
        5 => of_skipped(at, reader.skip_bytes(stream, (argument % 256) as u8)),
        6 => of_told(at, reader.tell(stream)),
        _ => of_sync(at, reader.find_frame_sync(stream)),
    }
}

// One call of the reader: its number is returned; the value, the bit position afterwards, and a search's two bytes are left in `answer`.
#[unsafe(no_mangle)]
pub extern "C" fn reading_reader(
    call: u32,
    stream: &[u8],
    at: usize,
    argument: usize,
    answer: &mut [usize; 4],
) -> u32
    ensures number { result ≡ (call_of call stream.now at argument).number }
    ensures given { let a = call_of call stream.now at argument in
        answer.new ≡ answer_into a answer.old }
{
    let a = reader_call(call, stream, at, argument);
    answer[0] = a.value;
    answer[1] = a.at;
    answer[2] = a.sync;
    answer[3] = a.skipped;
    a.number
}

// What an attempt at a header gives: 01's number, the bit position afterwards, a format, the pending data size, the byte of the sync.
#[derive(Clone, Copy)]
pub struct Headed {
    pub number: u32,
    pub at: usize,
    pub format: Format,
    pub size: usize,
    pub sync: usize,
}

// The format that four numbers stand for. The mode is 32 bits wide: of a larger number its low 32 bits count.
fn format(known: &[usize; 4]) -> Format
    ensures { result ≡ format_from known.now }
{
    let reading = readings::plain();
    Format {
        reading,
        samplerate: known[0],
        bitrate: known[1],
        mode: (known[2] % 4294967296) as u32,
        bound: known[3],
    }
}

fn of_attempt(known: Format, attempt: Attempt) -> Headed
    ensures { result ≡ of_attempt known attempt }
{
    let at = attempt.next.at.0;
    let sync = attempt.sync.0;
    match attempt.header {
        Ok(accepted) => Headed {
            number: 0,
            at,
            format: accepted.format,
            size: accepted.size,
            sync,
        },
        Err(refusal) => Headed {
            number: refusal.number(),
            at,
            format: known,
            size: 0,
            sync,
        },
    }
}

fn header_call(stream: &[u8], at: usize, known: Format) -> Headed
    ensures { result ≡ header_call_of stream.now at known }
{
    let reader = Reader { at: BitIndex(at) };
    of_attempt(known, header::decode_header(stream, reader, known))
}

fn store(h: Headed, answer: &mut [usize; 7])
    ensures { answer.new ≡ stored h answer.old }
{
    let format = h.format;
    answer[0] = h.at;
    answer[1] = format.samplerate;
    answer[2] = format.bitrate;
    answer[3] = format.mode as usize;
    answer[4] = format.bound;
    answer[5] = h.size;
    answer[6] = h.sync;
}

// One attempt at a header. `known`: sample-rate code (3: no header yet), bit-rate index, mode, bound. Its number is returned; `answer` has
// the bit position afterwards, the format in the same order, and the pending data size: after a refusal the known format and 0. Behind
// them stands the byte of the sync.
#[unsafe(no_mangle)]
pub extern "C" fn reading_header(
    stream: &[u8],
    at: usize,
    known: &[usize; 4],
    answer: &mut [usize; 7],
) -> u32
    ensures number { result ≡ (header_call_of stream.now at (format_from known.now)).number }
    ensures given { let h = header_call_of stream.now at (format_from known.now) in
        answer.new ≡ stored h answer.old }
{
    let h = header_call(stream, at, format(known));
    store(h, answer);
    h.number
}
