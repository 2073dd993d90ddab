// A line as text, written piece by piece: 01's, and where they are asked for a frame's start time and checksum behind it, or words.
#![tactic(auto)]

pub mod checksum;

ghost use Rattle.std.specs.Prelude.{◌≡◌};
ghost use Rattle.listing.specs.Text.{at_word, bare_text, behind_of, bracketed, format_text, hexed, marks_of, numbered, place_text, text_by, time_bits};
ghost use Rattle.listing.specs.Words.{line_words, mode_words, reason_of};
ghost use Rattle.scribe.specs.Page.{IsNext, Puts};

use buffer::BytePos;
use listing::{Behind, Line};
use scribe::Page;

// A word and a number behind it, in decimal.
pub fn put_number(page: &mut Page, word: &[u8], n: u64)
    requires { IsNext page.old (numbered word.now n) }
    ensures { Puts page.old (numbered word.now n) page.new }
{
    let mut digits = [0u8; 20];
    let k = io::decimal(n, &mut digits);
    page.put(word);
    page.put(&digits[..k]);
}

// And in 16 hexadecimal digits.
fn put_hex(page: &mut Page, word: &[u8], n: u64)
    requires { IsNext page.old (hexed word.now n) }
    ensures { Puts page.old (hexed word.now n) page.new }
{
    let mut digits = [0u8; 16];
    let k = io::hex(n, 16, &mut digits);
    page.put(word);
    page.put(&digits[..k]);
}

fn put_at(page: &mut Page, at: BytePos)
    requires { IsNext page.old (numbered at_word at.0) }
    ensures { Puts page.old (numbered at_word at.0) page.new }
{
    put_number(page, b" at ", at.0 as u64);
}

// A number, a position, and the bytes that were passed over.
#[tactic(auto, using(scribe::specs::PageLaws::pieces), unfolding(listing::specs::Text::place_text))]
fn put_place(page: &mut Page, word: &[u8], number: u32, at: BytePos, skipped: usize)
    requires { IsNext page.old (place_text word.now number at skipped) }
    ensures { Puts page.old (place_text word.now number at skipped) page.new }
{
    put_number(page, word, number as u64);
    put_at(page, at);
    put_number(page, b" skipped ", skipped as u64);
}

#[tactic(auto, using(scribe::specs::PageLaws::pieces), unfolding(listing::specs::Text::format_text))]
fn put_format(page: &mut Page, rate: u32, kbps: u32, mode: u32, bits: usize)
    requires { IsNext page.old (format_text rate kbps mode bits) }
    ensures { Puts page.old (format_text rate kbps mode bits) page.new }
{
    put_number(page, b" rate ", rate as u64);
    put_number(page, b" kbps ", kbps as u64);
    put_number(page, b" mode ", mode as u64);
    put_number(page, b" bits ", bits as u64);
}

// The bits of a start time; a NaN has no one pattern, and no start time is one.
pub fn time_bits(time: f64) -> u64
    ensures { result ≡ time_bits time }
{
    if time.is_nan() { 0 } else { time.to_bits() }
}

// A frame's marks; no other line has any.
fn put_marks(page: &mut Page, line: Line, samples: &[f32])
    requires { IsNext page.old (marks_of line samples.now) }
    ensures { Puts page.old (marks_of line samples.now) page.new }
{
    match line {
        Line::Frame { time, .. } => {
            put_hex(page, b" time ", time_bits(time));
            put_hex(page, b" sum ", checksum::sum(samples));
        }
        Line::Refused { .. } | Line::End { .. } | Line::Long => {}
    }
}

// What a call's number means.
#[tactic(auto, unfolding(listing::specs::Words::reason_of))]
pub fn reason(number: u32) -> &'static [u8]
    ensures { result.now ≡ reason_of number }
{
    match number {
        1 => b"no header can follow",
        2 => b"no sync found",
        3 => b"another version or layer",
        4 => b"a bit rate that is none",
        5 => b"a sample rate that is none",
        6 => b"another bit rate, sample rate or mode than the first",
        7 => b"the last frame is cut off",
        13 => b"a bit rate that the standard does not have in this mode",
        _ => b"a mistake of the caller",
    }
}

#[tactic(auto, unfolding(listing::specs::Words::mode_words))]
fn mode_name(mode: u32) -> &'static [u8]
    ensures { result.now ≡ mode_words mode }
{
    match mode {
        0 => b"stereo",
        1 => b"joint stereo",
        2 => b"two channels",
        _ => b"mono",
    }
}

// What a line means.
fn meaning(line: Line) -> &'static [u8]
    ensures { result.now ≡ line_words line }
{
    match line {
        Line::Frame { mode, .. } => mode_name(mode),
        Line::Refused { number, .. } | Line::End { number, .. } => reason(number),
        Line::Long => b"more than 65,536 bytes",
    }
}

// Words in brackets.
#[tactic(auto, using(scribe::specs::PageLaws::pieces), unfolding(listing::specs::Text::bracketed))]
pub fn put_bracketed(page: &mut Page, words: &[u8])
    requires { IsNext page.old (bracketed words.now) }
    ensures { Puts page.old (bracketed words.now) page.new }
{
    page.put(b" (");
    page.put(words);
    page.put(b")");
}

// What stands behind a line, where it is asked for.
fn put_behind(page: &mut Page, behind: Behind, line: Line, samples: &[f32])
    requires { IsNext page.old (behind_of behind line samples.now) }
    ensures { Puts page.old (behind_of behind line samples.now) page.new }
{
    match behind {
        Behind::Nothing => {}
        Behind::Marks => put_marks(page, line, samples),
        Behind::Words => put_bracketed(page, meaning(line)),
    }
}

// A line as 01 and E2 have it, up to its newline.
#[tactic(auto, using(scribe::specs::PageLaws::pieces), unfolding(listing::specs::Text::frame_text))]
fn put_bare(page: &mut Page, line: Line)
    requires { IsNext page.old (bare_text line) }
    ensures { Puts page.old (bare_text line) page.new }
{
    match line {
        Line::Frame {
            number,
            at,
            rate,
            kbps,
            mode,
            bits,
            skipped,
            ..
        } => {
            put_number(page, b"frame ", number as u64);
            put_at(page, at);
            put_format(page, rate, kbps, mode, bits);
            put_number(page, b" skipped ", skipped as u64);
        }
        Line::Refused {
            number,
            at,
            skipped,
        } => put_place(page, b"refused ", number, at, skipped),
        Line::End {
            number,
            at,
            skipped,
        } => put_place(page, b"end ", number, at, skipped),
        Line::Long => page.put(b"long"),
    }
}

#[tactic(auto, using(scribe::specs::PageLaws::pieces))]
pub fn put_line(page: &mut Page, behind: Behind, line: Line, samples: &[f32])
    requires { IsNext page.old (text_by behind line samples.now) }
    ensures { Puts page.old (text_by behind line samples.now) page.new }
{
    put_bare(page, line);
    put_behind(page, behind, line, samples);
    page.put(b"\n");
}
