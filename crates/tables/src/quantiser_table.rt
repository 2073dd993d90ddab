// The table of quantisers as a caller holds and lends it.
#![tactic(auto)]

ghost use Rattle.std.specs.Prelude.{◌≡◌};
ghost use Rattle.tables.specs.Source.{step4};

// A row for each kind of subband, and in it a quantiser for each allocation.
#[derive(Clone, Copy)]
pub struct QuantiserTable {
    pub rows: [[u8; 16]; 5],
    ghost listed: { rows ≡ step4 },
}
