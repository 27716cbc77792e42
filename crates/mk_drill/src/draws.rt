// The generator: numbers that come one after the other, and are the same on every machine.
ghost use Rattle.std.specs.Prelude.{◌≡◌, ◌<◌};
ghost use Rattle.mk_drill.specs.Draws.{draw_below, next_state};

/// What a draw gives comes from the state, which each draw changes.
#[derive(Clone, Copy, Debug, PartialEq, Eq)]
pub struct Draws {
    pub state: u32,
}

/// Draws a number below `n`.
#[tactic(auto, unfolding(crate::specs::Draws::next_state, crate::specs::Draws::draw_below))]
pub fn draw_below(draws: &mut Draws, n: u32) -> u32
    requires { 0 < n }
    ensures number { result ≡ draw_below n draws.old.state }
    ensures state { draws.new.state ≡ next_state draws.old.state }
{
    let next = (1_664_525 * u64::from(draws.state) + 1_013_904_223) % 4_294_967_296;
    draws.state = next as u32;
    draws.state / 65_536 % n
}
