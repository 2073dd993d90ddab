// The start of a frame in seconds, and the test that a kept time is just that.
#![tactic(auto)]

ghost use Rattle.std.specs.Prelude.{◌≡◌, not, T};
ghost use Rattle.std.specs.Float.Ieee.{is_nan};
ghost use Rattle.clock.specs.Clock.{start_time_of, are_same_bits, on_time};

// +0.0 before any header, which is sample-rate code 3.
pub fn start_time(frames: u32, samplerate: usize) -> f64
    ensures { result ≡ start_time_of frames samplerate }
{
    if 3 <= samplerate {
        return 0.0;
    }
    let samples = frames as u64 * 1152;
    let rate = tables::rate(samplerate);
    samples as f64 / rate as f64
}

// The bits of a NaN are not defined, so a NaN is refused first.
#[tactic(auto, unfolding(crate::specs::Clock::are_same_bits))]
fn same_bits(x: f64, y: f64) -> bool
    requires { T (not (is_nan y)) }
    ensures { result ≡ are_same_bits x y }
{
    !x.is_nan() && x.to_bits() == y.to_bits()
}

// Whether `time` has the bits of that start: −0.0 is not +0.0 here.
#[tactic(auto, using(crate::specs::Laws::start_real), unfolding(crate::specs::Clock::on_time))]
pub fn on_time(time: f64, frames: u32, samplerate: usize) -> bool
    ensures { result ≡ on_time time frames samplerate }
{
    same_bits(time, start_time(frames, samplerate))
}
