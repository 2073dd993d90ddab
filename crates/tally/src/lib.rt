// What a listing adds up to, by a pass of its own over the calls.
#![tactic(auto)]

ghost use Rattle.std.specs.Prelude.{◌≡◌, ◌+◌, ◌^◌, ◌≤◌, ◌<◌, length, []};
ghost use Rattle.listing.specs.Lines.{lines_in, lines_of, opening_shown};
ghost use Rattle.listing.specs.Tally.{skipped_in};
ghost use Rattle.tally.specs.Tally.{keep_of, keep_at, junk_more, add_of, tally_of, Few};

use listing::Line;
use readings::Reading;
use verdict::Asked;

// How many values there were, and the first of them.
#[derive(Clone, Copy)]
pub struct Kept {
    pub count: u32,
    pub first: usize,
}

// The frames with their rates; for each number below 16 the calls refused with it, with their bytes; the number that ended the listing;
// the bytes of junk in front.
#[derive(Clone, Copy)]
pub struct Tally {
    pub frames: Kept,
    pub refused: [Kept; 16],
    pub end: u32,
    pub junk: usize,
}

// One value more.
fn keep(kept: Kept, value: usize) -> Kept
    requires { kept.count < 100000 }
    ensures { result ≡ keep_of kept value }
{
    let count = kept.count + 1;
    if kept.count == 0 {
        return Kept {
            count,
            first: value,
        };
    }
    Kept {
        count,
        first: kept.first,
    }
}

fn keep_at(refused: [Kept; 16], number: usize, value: usize) -> [Kept; 16]
    requires { Few refused }
    ensures { result ≡ keep_at refused number value }
{
    let mut kept = refused;
    if number < 16 {
        kept[number] = keep(refused[number], value);
    }
    kept
}

// What is passed over behind a frame may be the frame's own unused end: only what comes before the first is junk.
fn more_junk(tally: Tally, line: Line) -> usize
    requires { tally.junk + skipped_in line < 2 ^ 64 }
    ensures { result ≡ junk_more tally (skipped_in line) }
{
    if tally.frames.count == 0 {
        return tally.junk + listing::skipped(line);
    }
    tally.junk
}

// One line more.
fn add(tally: Tally, line: Line) -> Tally
    requires count_bound { (tally.frames.count < 100000) × Few tally.refused }
    requires line_bound { tally.junk + skipped_in line < 2 ^ 64 }
    ensures { result ≡ add_of tally line }
{
    let junk = more_junk(tally, line);
    match line {
        Line::Frame { rate, .. } => Tally {
            frames: keep(tally.frames, rate as usize),
            junk,
            ..tally
        },
        Line::Refused { number, at, .. } => Tally {
            refused: keep_at(tally.refused, number as usize, at.0),
            junk,
            ..tally
        },
        Line::End { number, .. } => Tally {
            end: number,
            junk,
            ..tally
        },
        Line::Long => tally,
    }
}

fn nothing() -> Tally
    ensures { result ≡ tally_of [] }
{
    let none = Kept { count: 0, first: 0 };
    let refused = [none; 16];
    Tally {
        frames: none,
        refused,
        end: 0,
        junk: 0,
    }
}

fn opening(opened: Asked) -> Tally
    ensures { result ≡ tally_of (lines_in (opening_shown opened.skipped opened.answer opened.state)) }
{
    match opened.answer {
        Ok(()) => nothing(),
        Err(refusal) => {
            let number = refusal.number();
            if listing::is_told(number) {
                let at = listing::byte_of(opened.state);
                let line = Line::Refused {
                    number,
                    at,
                    skipped: opened.skipped,
                };
                return add(nothing(), line);
            }
            nothing()
        }
    }
}

pub fn count(stream: &[u8], reading: Reading) -> Tally
    requires { length stream.now ≤ 65536 }
    ensures { result ≡ tally_of (lines_of reading stream.now) }
{
    let mut memory = [0.0f32; synthesis::MEMORY];
    let mut output = [0.0f32; synthesis::OUTPUT];
    let opened = audio::new(stream, &mut memory, reading);
    let mut tally = opening(opened);
    let mut state = opened.state;
    let mut carried = listing::carried(opened);
    for _ in 0..stream.len() / 2 + 2 {
        let listed = listing::next_line(state, stream, &mut memory, &mut output, carried);
        carried = 0;
        state = listed.state;
        tally = add(tally, listed.line);
        if listing::is_last(listed.line) {
            break;
        }
    }
    tally
}
