// Long runs of inner calls, for a clock outside.
ghost use Rattle.std.specs.Prelude.{◌≡◌};
ghost use Rattle.buffer.specs.Calls.{reader_at};
ghost use Rattle.probe.specs.Runs.{run_sum};

use buffer::{BitIndex, Reader};

// The sum of `times` fields of `width` bits, read one after the other from bit `at`.
#[unsafe(no_mangle)]
pub extern "C" fn probe_read_run(stream: &[u8], at: usize, width: usize, times: usize) -> u64
    ensures { result ≡ run_sum stream.now width (reader_at at) times }
{
    let mut reader = Reader { at: BitIndex(at) };
    let mut sum: u64 = 0;
    for _turn in 0..times {
        let f = reader.field(stream, width);
        sum = std::num::wrapping_add_u64(sum, f.value as u64);
        reader = f.next;
    }
    sum
}
