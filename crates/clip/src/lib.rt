// A clip frame by frame: the decoder's calls until 1 or 7, with the refusals between passed over.
#![tactic(auto)]

ghost use Rattle.std.specs.Prelude.{◌≡◌};
ghost use Rattle.audio.specs.Calls.{open_memory};
ghost use Rattle.clip.specs.Frames.{count_of, turn_of, opened_of};

use audio::Answer;
use state::Audio;

// A decoder and the calls that it may still make: on n bytes every call after n/2 + 1 of them gives 1 or 7.
#[derive(Clone, Copy)]
pub struct Playing {
    pub state: Audio,
    pub calls: usize,
}

// The samples a second of the frame that was found, if there was one, and where the calls stand behind it.
#[derive(Clone, Copy)]
pub struct Reached {
    pub rate: Option<u32>,
    pub playing: Playing,
}

#[derive(Clone, Copy)]
pub struct Counted {
    pub frames: usize,
    pub rate: u32,
}

// From the stream's start.
pub fn start(stream: &[u8], memory: &mut [f32]) -> Playing
    ensures value { result ≡ opened_of stream.now memory.old }
    ensures memory_after { memory.new ≡ open_memory stream.now memory.old }
{
    let opened = audio::new(stream, memory, readings::plain());
    let state = opened.state;
    let calls = stream.len() / 2 + 2;
    Playing { state, calls }
}

// The next frame: its samples are in the output.
pub fn next(playing: Playing, stream: &[u8], memory: &mut [f32], output: &mut [f32]) -> Reached
    ensures value { result ≡ (turn_of playing.calls stream.now memory.old output.old playing.state).reached }
    ensures memory_after { memory.new ≡ (turn_of playing.calls stream.now memory.old output.old playing.state).memory }
    ensures output_after { output.new ≡ (turn_of playing.calls stream.now memory.old output.old playing.state).output }
{
    let mut state = playing.state;
    let mut calls = playing.calls;
    while 0 < calls {
        calls -= 1;
        let decoded = audio::decode(state, stream, memory, output);
        state = decoded.state;
        match decoded.answer {
            Answer::Frame { .. } => {
                return Reached {
                    rate: Some(tables::rate(state.format.samplerate)),
                    playing: Playing { state, calls },
                };
            }
            Answer::Refused(refusal) => {
                if audio::ends(refusal.number()) {
                    break;
                }
            }
        }
    }
    Reached {
        rate: None,
        playing: Playing { state, calls },
    }
}

// How many frames a clip has, and its rate.
pub fn count(stream: &[u8]) -> Counted
    ensures { result ≡ count_of stream.now }
{
    let mut memory = [0.0f32; synthesis::MEMORY];
    let mut output = [0.0f32; synthesis::OUTPUT];
    let opened = start(stream, &mut memory);
    let mut at = next(opened, stream, &mut memory, &mut output);
    let rate = at.rate.unwrap_or(44100);
    let mut frames = 0;
    while let Some(_) = at.rate {
        frames += 1;
        at = next(at.playing, stream, &mut memory, &mut output);
    }
    Counted { frames, rate }
}
