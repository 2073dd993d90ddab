// The synthesis of a granule: its three slots, in both channels, over a lent memory and a lent output.
#![tactic(auto)]

ghost use Rattle.std.specs.Prelude.{◌≡◌, ◌+◌, ◌*◌, ◌<◌, ◌≤◌, length};
ghost use Rattle.transform.specs.Transform.{Small};
ghost use Rattle.window.specs.Output.{Place, output_of, stores};
ghost use Rattle.synthesis.specs.Slots.{memory_length, slot_ring, slot_memory, slot_output, slot_samples, position_after, memory_after, output_after};

use window::Window;

// The values of synthesis memory, both channels' rings, and of a frame's output, both channels' samples.
pub const MEMORY: usize = 2048;

pub const OUTPUT: usize = 2304;

// A slot of one channel: the transform writes its 64 values at p in the ring, then the 32 outputs follow from the ring.
fn channel_slot(
    ring: &mut [f32],
    p: usize,
    samples: &[i32],
    window: &Window,
    output: &mut [f32],
    at: usize,
)
    requires { Place p × (length ring.old ≡ 1024) × (length samples.now ≡ 32) × Small samples.now × (at + 63 ≤ length output.old) }
    ensures ring_after { ring.new ≡ slot_ring ring.old p samples.now }
    ensures output_after { output.new ≡ stores output.old at (output_of (slot_ring ring.old p samples.now) p) 32 }
{
    let end = p + 64;
    transform::idct36(samples, &mut ring[p..end]);
    window::window_slot(window, ring, p, output, at);
}

// Slot n of a granule, both channels.
fn slot(
    memory: &mut [f32],
    p: usize,
    sample: &[i32],
    n: usize,
    window: &Window,
    output: &mut [f32],
    at: usize,
)
    requires { Place p × (memory_length ≤ length memory.old) × (length sample.now ≡ 192) × Small sample.now × (n < 3)
        × (at + 64 ≤ length output.old) }
    ensures memory_after { memory.new ≡ slot_memory (slot_samples sample.now) memory.old p n }
    ensures output_after { output.new ≡ slot_output (slot_samples sample.now) memory.old p n output.old at }
{
    let left = 64 * n;
    let right = left + 32;
    let end = right + 32;
    channel_slot(
        &mut memory[0..1024],
        p,
        &sample[left..right],
        window,
        output,
        at,
    );
    channel_slot(
        &mut memory[1024..MEMORY],
        p,
        &sample[right..end],
        window,
        output,
        at + 1,
    );
}

// A granule, from ring position p: the position after it.
pub fn synthesize(
    memory: &mut [f32],
    p: usize,
    sample: &[i32; 192],
    window: &Window,
    output: &mut [f32],
    at: usize,
) -> usize
    requires { Place p × (memory_length ≤ length memory.old) × Small sample.now × (at + 192 ≤ length output.old) }
    ensures value { result ≡ position_after p 3 }
    ensures memory_after { memory.new ≡ memory_after (slot_samples sample.now) p memory.old 3 }
    ensures output_after { output.new ≡ output_after (slot_samples sample.now) p memory.old output.old at 3 }
{
    let mut position = p;
    for n in 0..3 {
        position = (position + 960) % 1024;
        slot(memory, position, sample, n, window, output, at + 64 * n);
    }
    position
}
