//! What the definitions of a made-up run say: each law is the contract of a function that does nothing.
ghost use Rattle.std.specs.Prelude.{◌≡◌, ◌+◌, ◌<◌, ◌≤◌, ◌++◌, List, ℕ, length};
ghost use Rattle.qs_generate.specs.Drawing.{round_draws};
ghost use Rattle.qs_generate.specs.Generated.{made_next};
ghost use Rattle.qs_generate.specs.Lives.{Generated};
ghost use Rattle.qs_generate.specs.Numbering.{AsksAnew};
ghost use Rattle.qs_generate.specs.Sums.{weighted};
ghost use Rattle.qs_generate.specs.declared.live.LiveRequest.{LiveRequest as ALive};

/// No two requests of a run have one cookie.
pub fn new_cookies()
    ensures { (g : Generated) (live : List ALive) → AsksAnew g.turn (made_next g live) }
{}

/// Each request of a run lies inside the image.
pub fn inside()
    ensures { (size x : ℕ) → 2048 < size → (round_draws size x).offset + (round_draws size x).length ≤ size }
{}

/// The sum of an image is that of its blocks, one behind the other.
pub fn by_blocks()
    ensures { (place : ℕ) (front rest : List ℕ) →
        weighted place (front ++ rest) ≡ weighted place front + weighted (place + length front) rest }
{}
