// What a frame's fields are read by: its layout, and what stands before its codes.
#![tactic(auto)]

ghost use Rattle.std.specs.Prelude.{◌≤◌};
ghost use Rattle.side.specs.Below.{SideInRange, side_with};

// What the format says of a frame's fields: one channel or two, the table of allocations, the subband from which one allocation serves
// both channels, and how many subbands there are.
#[derive(Clone, Copy)]
pub struct Layout {
    pub mono: bool,
    pub table: usize,
    pub bound: usize,
    pub limit: usize,
    ghost subbands: { limit ≤ 32 },
}

// What stands before the codes, with the layout that it was read by: a quantiser for each place, and a factor for each part and place.
#[derive(Clone, Copy)]
pub struct SideInfo {
    pub layout: Layout,
    pub quant: [u8; 64],
    pub factor: [u32; 192],
    ghost ranged: { SideInRange (side_with quant factor) },
}
