// The window as a caller holds and lends it.
#![tactic(auto)]

ghost use Rattle.std.specs.Prelude.{◌≡◌};
ghost use Rattle.window.specs.Window.{window_list};

// The 512 entries of the standard's table, each as the source has it.
#[derive(Clone, Copy)]
pub struct Window {
    pub entries: [f32; 512],
    ghost listed: { entries ≡ window_list },
}
