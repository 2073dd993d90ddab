// The numbers of a refusal, by name.
#![tactic(auto)]

ghost use Rattle.std.specs.Prelude.{◌≡◌};
ghost use Rattle.refusal.specs.Numbers.{number_of};

// Why a call gave nothing. Each has the number that firmware and listings know it by.
#[derive(Clone, Copy, PartialEq, Eq, Debug)]
pub enum Refusal {
    // No header is pending, and fewer than 48 bits remain.
    NoHeader = 1,
    // A header was sought, and there is no sync.
    NoSync = 2,
    // The version is not 3, or the layer is not 2.
    OtherLayer = 3,
    // The bit-rate field is 0 or 15.
    NoBitRate = 4,
    // The sample-rate field is 3.
    NoSampleRate = 5,
    // Bit rate, sample rate or mode is not that of the first header.
    OtherFormat = 6,
    // A header is pending, and not all of its data remain.
    CutOff = 7,
    // The stream has more than 16,777,216 bytes.
    LongStream = 8,
    // The memory has fewer than 2,048 values, or the output fewer than 2,304.
    LittleRoom = 9,
    // The state is out of range.
    BadState = 10,
    // More than 32 bits were to be read at once.
    WideRead = 11,
    // More bits were to be read than remain.
    ShortRead = 12,
    // The standard does not have this bit rate in this mode; only a strict reading asks.
    BarredRate = 13,
}

impl Refusal {
    pub fn number(self) -> u32
        ensures { result ≡ number_of self }
    {
        self as u32
    }
}
