// A stream in one line of words, on standard error: its frames, the junk in front, its refusals by their numbers, its end.
#![tactic(auto)]

ghost use Rattle.std.specs.Prelude.{◌≡◌, ◌≤◌, length};
ghost use Rattle.listing.specs.Summary.{counted_text, frames_text, hundredths_of, junk_text, reason_text, refusal_text, seconds_text};
ghost use Rattle.scribe.specs.Page.{IsNext, IsWritten, Puts};
ghost use Rattle.summary.specs.Refusals.{refusals_by};

use readings::Reading;
use scribe::{Page, Whole};
use tally::Kept;

// "1 frame", "2 frames".
#[tactic(auto, using(scribe::specs::PageLaws::pieces), unfolding(listing::specs::Summary::counted_text))]
fn put_counted(page: &mut Page, word: &[u8], n: u64, things: &[u8])
    requires { IsNext page.old (counted_text word.now n things.now) }
    ensures { Puts page.old (counted_text word.now n things.now) page.new }
{
    text::put_number(page, word, n);
    page.put(things);
    if n != 1 {
        page.put(b"s");
    }
}

fn hundredths(frames: u32, rate: usize) -> u64
    ensures { result ≡ hundredths_of frames rate }
{
    (frames as u64 * 115200 + rate as u64 / 2)
        .checked_div(rate as u64)
        .unwrap_or(0)
}

#[tactic(auto, using(scribe::specs::PageLaws::pieces), unfolding(listing::specs::Summary::seconds_text))]
fn put_seconds(page: &mut Page, n: u64)
    requires { IsNext page.old (seconds_text n) }
    ensures { Puts page.old (seconds_text n) page.new }
{
    text::put_number(page, b", ", n / 100);
    text::put_number(page, b".", n / 10 % 10);
    text::put_number(page, b"", n % 10);
    page.put(b" s");
}

#[tactic(auto, using(scribe::specs::PageLaws::pieces), unfolding(listing::specs::Summary::frames_text))]
fn put_frames(page: &mut Page, frames: Kept)
    requires { IsNext page.old (frames_text frames.count frames.first) }
    ensures { Puts page.old (frames_text frames.count frames.first) page.new }
{
    if frames.count == 0 {
        page.put(b"0 frames: nothing was played");
    } else {
        put_counted(page, b"", frames.count as u64, b" frame");
        put_seconds(page, hundredths(frames.count, frames.first));
    }
}

// None is not told.
#[tactic(auto, using(scribe::specs::PageLaws::pieces), unfolding(listing::specs::Summary::junk_text))]
fn put_junk(page: &mut Page, bytes: usize)
    requires { IsNext page.old (junk_text bytes) }
    ensures { Puts page.old (junk_text bytes) page.new }
{
    if bytes > 0 {
        put_counted(page, b"; ", bytes as u64, b" byte");
        page.put(b" of junk in front");
    }
}

// A number, and what it means.
#[tactic(auto, using(scribe::specs::PageLaws::pieces), unfolding(listing::specs::Summary::reason_text))]
fn put_reason(page: &mut Page, word: &[u8], number: u32)
    requires { IsNext page.old (reason_text word.now number) }
    ensures { Puts page.old (reason_text word.now number) page.new }
{
    text::put_number(page, word, number as u64);
    text::put_bracketed(page, text::reason(number));
}

// A number that no call was refused with is not told.
#[tactic(auto, using(scribe::specs::PageLaws::pieces), unfolding(listing::specs::Summary::refusal_text))]
fn put_refusal(page: &mut Page, number: u32, refused: Kept)
    requires { IsNext page.old (refusal_text number refused.count refused.first) }
    ensures { Puts page.old (refusal_text number refused.count refused.first) page.new }
{
    if refused.count > 0 {
        put_counted(page, b"; ", refused.count as u64, b" call");
        put_reason(page, b" refused with ", number);
        text::put_number(page, b" from byte ", refused.first as u64);
    }
}

// Every number that a tally has a place for, up to 15, so that no refusal is left out. 2 to 6 and 13 are those of a call that was refused
// and is not the end.
fn put_refusals(page: &mut Page, refused: &[Kept; 16])
    requires { IsNext page.old (refusals_by refused.now 2 14) }
    ensures { Puts page.old (refusals_by refused.now 2 14) page.new }
{
    for number in 2..16 {
        put_refusal(page, number as u32, refused[number]);
    }
}

fn put_lines<'a>(rt: HostRuntime, stream: &'a [u8], reading: Reading) -> Page<'a>
    requires { length stream.now ≤ 65536 }
    ensures { IsWritten (Whole.Summary reading) stream.now result }
{
    let tally = tally::count(stream, reading);
    let mut page = Page::new(rt, Whole::Summary(reading), stream);
    put_frames(&mut page, tally.frames);
    put_junk(&mut page, tally.junk);
    put_refusals(&mut page, &tally.refused);
    put_reason(&mut page, b"; ended with ", tally.end);
    page.put(b"\n");
    page
}

pub fn tell<'a>(rt: HostRuntime, stream: &'a [u8], reading: Reading) -> Page<'a>
    ensures { IsWritten (Whole.Summary reading) stream.now result }
{
    if stream.len() <= 65536 {
        return put_lines(rt, stream, reading);
    }
    let mut page = Page::new(rt, Whole::Summary(reading), stream);
    page.put(b"too long: 65,536 bytes at most\n");
    page
}
