// What is in a clip, as text: the opening's line, then call by call.
#![tactic(auto)]

ghost use Rattle.std.specs.Prelude.{◌≤◌, length};
ghost use Rattle.listing.specs.Lines.{opening_shown};
ghost use Rattle.listing.specs.Text.{texts_of};
ghost use Rattle.scribe.specs.Page.{IsNext, IsWritten, Puts};

use listing::{Behind, Line};
use readings::Reading;
use scribe::{Page, Whole};
use verdict::Asked;

// "An opening refused with 2 to 5 prints it too", and so does 13; one refused with 1 is told by the first call.
fn put_opening(page: &mut Page, behind: Behind, opened: Asked)
    requires { IsNext page.old (texts_of behind (opening_shown opened.skipped opened.answer opened.state)) }
    ensures { Puts page.old (texts_of behind (opening_shown opened.skipped opened.answer opened.state)) page.new }
{
    match opened.answer {
        Ok(()) => {}
        Err(refusal) => {
            let number = refusal.number();
            if listing::is_told(number) {
                let at = listing::byte_of(opened.state);
                let line = Line::Refused {
                    number,
                    at,
                    skipped: opened.skipped,
                };
                text::put_line(page, behind, line, &[]);
            }
        }
    }
}

// "calls until 1 or 7": on n bytes at most n/2 + 1 calls come before. What the opening carries goes to one line.
fn list<'a>(rt: HostRuntime, stream: &'a [u8], reading: Reading, behind: Behind) -> Page<'a>
    requires { length stream.now ≤ 65536 }
    ensures { IsWritten (Whole.Lines reading behind) stream.now result }
{
    let mut memory = [0.0f32; synthesis::MEMORY];
    let mut output = [0.0f32; synthesis::OUTPUT];
    let mut page = Page::new(rt, Whole::Lines(reading, behind), stream);
    let opened = audio::new(stream, &mut memory, reading);
    put_opening(&mut page, behind, opened);
    let mut state = opened.state;
    let mut carried = listing::carried(opened);
    for _ in 0..stream.len() / 2 + 2 {
        let listed = listing::next_line(state, stream, &mut memory, &mut output, carried);
        carried = 0;
        state = listed.state;
        text::put_line(&mut page, behind, listed.line, &output);
        if listing::is_last(listed.line) {
            break;
        }
    }
    page
}

// The listing of a stream: of more than 65,536 bytes the one line `long`.
pub fn whole<'a>(rt: HostRuntime, stream: &'a [u8], reading: Reading, behind: Behind) -> Page<'a>
    ensures { IsWritten (Whole.Lines reading behind) stream.now result }
{
    if stream.len() <= 65536 {
        return list(rt, stream, reading, behind);
    }
    let mut page = Page::new(rt, Whole::Lines(reading, behind), stream);
    text::put_line(&mut page, behind, Line::Long, &[]);
    page
}
