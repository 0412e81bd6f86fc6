ghost use Rattle.std.specs.Prelude.{◌≡◌, ◌<◌};
ghost use Rattle.qs_generate.specs.Drawing.{drawn, round_draws, state_after};

/// What the state is multiplied by at a draw.
const MULTIPLIER: u64 = 6_364_136_223_846_793_005;

/// What is then added to it.
const INCREMENT: u64 = 1_442_695_040_888_963_407;

/// Numbers that follow from a seed. A draw makes of the state `x` the state `x * 6364136223846793005 +
/// 1442695040888963407` modulo 2^64, and gives what its upper 31 bits leave modulo the bound.
#[derive(Clone, Copy, Debug, PartialEq, Eq)]
pub struct Draws {
    pub state: u64,
}

/// What a round draws for its request, and how many steps it then draws.
#[derive(Clone, Copy, Debug, PartialEq, Eq)]
pub struct RoundDraws {
    /// The session, counted from 0.
    pub session: u64,
    pub kind: u64,
    /// The first byte of the request, and how many bytes it has.
    pub offset: u64,
    pub length: u64,
    /// The byte that a WRITE has over and over.
    pub byte: u8,
    pub steps: u64,
}

impl Draws {
    /// The next number, which is below `bound`.
    pub fn draw(&mut self, bound: u64) -> u64
        requires { 0 < bound }
        ensures drawn { result ≡ drawn self.old.state 1 bound }
        ensures state { self.new.state ≡ state_after self.old.state 1 }
        ensures below { result < bound }
    {
        self.state = next_state(self.state);
        (self.state >> 33) % bound
    }

    /// What the next round draws, over an image of `size` bytes.
    pub fn draw_round(&mut self, size: u64) -> RoundDraws
        requires { 2048 < size }
        ensures drawn { result ≡ round_draws size self.old.state }
        ensures state { self.new.state ≡ state_after self.old.state 6 }
    {
        let session = self.draw(4);
        let kind = self.draw(8);
        let offset = self.draw(size - 2048);
        let length = 1 + self.draw(2048);
        let byte = self.draw(256) as u8;
        let steps = 1 + self.draw(4);
        RoundDraws {
            session,
            kind,
            offset,
            length,
            byte,
            steps,
        }
    }
}

/// The state that follows a state.
fn next_state(state: u64) -> u64
    ensures { result ≡ state_after state 1 }
{
    state.wrapping_mul(MULTIPLIER).wrapping_add(INCREMENT)
}
