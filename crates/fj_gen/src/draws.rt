// The generator of draws: a linear congruence modulo 2 ^ 31, of which a draw gives the upper 15 bits.
ghost use Rattle.std.specs.Prelude.{◌≡◌};
ghost use Rattle.fj_gen.specs.Draws.{next_state, drawn};

/// The state after one more draw.
#[tactic(auto, unfolding(crate::specs::Draws::next_state))]
pub fn next_state(state: u32) -> u32
    ensures { result ≡ next_state state }
{
    let next = u64::from(state) * 1_103_515_245 + 12_345;
    (next % 2_147_483_648) as u32
}

/// What a draw gives that leaves this state.
#[tactic(auto, unfolding(crate::specs::Draws::drawn))]
pub fn drawn(state: u32) -> u32
    ensures { result ≡ drawn state }
{
    state / 65_536
}
