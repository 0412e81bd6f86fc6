ghost use Rattle.std.specs.Prelude.{◌≡◌, ◌+◌, ◌-◌, ◌*◌, ◌^◌, ◌<◌, ◌≤◌, IsSome, find, nat_lt};
ghost use Rattle.qs_generate.specs.Generated.{Makes, round_asked, session_attached, pass_begun, made_next, pass_over, ran, stepped};
ghost use Rattle.qs_generate.specs.Nearing.{turn_rank, span};
ghost use Rattle.qs_generate.specs.declared.live.NextMove.TheVariants.{Attach};
ghost use Rattle.qs_generate.specs.declared.live.NextMove.TheVariants as next_move;

use crate::draws::Draws;
use crate::live::{LiveRequest, NextMove, first_left, session_line};
use crate::request::request_line;
use qs_script::{Line, LineFault};
use std::alloc::Global;
use std::marker::Model;

/// How many rounds a run has.
const ROUNDS: u64 = 10_000;

/// Behind each round whose number is a multiple of this the live requests are run.
const RUN_ROUNDS: u64 = 16;

/// In so many passes they are run.
const PASSES: u64 = 16;

/// A made-up run over an image, of which a seed determines all but what the core answers. Sessions A to
/// D are made on `disk`. Each of 10,000 rounds makes one request and up to four steps of live requests;
/// behind each 16th round all live requests are run, in 16 passes.
#[derive(Debug, Drop)]
pub struct GeneratedRun {
    size: u64,
    draws: Draws,
    turn: NextMove,
}

impl Model for GeneratedRun {
    ghost use Rattle.std.specs.Prelude.{◌<◌};
    ghost use Rattle.qs_generate.specs.Lives.{Generated, IsLawful};

    ghost Value = { Generated };

    ghost view = { λ r. record { size = r.size; state = r.draws.state; turn = r.turn } };

    ghost invariant = { λ r. (2048 < r.size) × IsLawful r.turn };
}

impl GeneratedRun {
    /// A run over an image of `size` bytes, before its first line.
    pub fn new(seed: u64, size: u64) -> Self
        requires { 2048 < size }
        ensures { result ≡ record { size = size; state = seed; turn = Attach 0 } }
    {
        GeneratedRun {
            size,
            draws: Draws { state: seed },
            turn: NextMove::Attach(0),
        }
    }

    /// The next line, where these requests are live, in order of making; `None` behind the last. Where
    /// memory is refused for the bytes of a WRITE, that is told, and the run goes on as with it. With each
    /// line the run is nearer to its end (`rank_of`).
    pub fn next_line(
        &mut self,
        alloc: Global,
        live: &[LiveRequest],
    ) -> Option<Result<Line, LineFault>>
        ensures line { Makes (made_next self.old live.now) result self.new }
        ensures ends { IsSome result → turn_rank self.new.turn < turn_rank self.old.turn }
    {
        match self.turn {
            NextMove::Attach(session) => self.attach(session),
            NextMove::Ask(round) => self.ask(alloc, round),
            NextMove::Step { round, left } => self.step(alloc, round, left, live),
            NextMove::Run { round, pass, done } => self.pass(alloc, round, pass, done, live),
        }
    }

    /// A session is made; the first round follows the last one.
    fn attach(&mut self, session: u64) -> Option<Result<Line, LineFault>>
        requires { session < 4 }
        ensures line { Makes (session_attached self.old session) result self.new }
        ensures ends { turn_rank self.new.turn < turn_rank (Attach session) }
    {
        self.turn = if session < 3 {
            NextMove::Attach(session + 1)
        } else {
            NextMove::Ask(1)
        };
        Some(Ok(session_line(session)))
    }

    /// The request of a round, if there is such a round.
    fn ask(&mut self, alloc: Global, round: u64) -> Option<Result<Line, LineFault>>
        requires { round ≤ 10001 }
        ensures line { Makes (round_asked self.old round) result self.new }
        ensures ends { IsSome result → turn_rank self.new.turn < turn_rank (next_move.Ask round) }
    {
        if round > ROUNDS {
            self.turn = NextMove::Ask(round);
            return None;
        }
        let draws = self.draws.draw_round(self.size);
        self.turn = NextMove::Step {
            round,
            left: draws.steps,
        };
        Some(request_line(alloc, round, &draws))
    }

    /// A step of a live request, or what comes behind the steps of a round.
    fn step(
        &mut self,
        alloc: Global,
        round: u64,
        left: u64,
        live: &[LiveRequest],
    ) -> Option<Result<Line, LineFault>>
        requires { round ≤ 10000 }
        ensures line { Makes (stepped self.old round left live.now) result self.new }
        ensures ends { IsSome result → turn_rank self.new.turn < turn_rank (next_move.Step round left) }
    {
        if left == 0 || live.is_empty() {
            return if round % RUN_ROUNDS == 0 {
                self.begin_pass(alloc, round, 1, live)
            } else {
                self.ask(alloc, round + 1)
            };
        }
        let place = self.draws.draw(live.len() as u64);
        self.turn = NextMove::Step {
            round,
            left: left - 1,
        };
        let request = live[place as usize];
        Some(Ok(Line::Step {
            actor: request.actor(),
            now: 0,
        }))
    }

    /// A pass goes on, behind the request with this cookie.
    fn pass(
        &mut self,
        alloc: Global,
        round: u64,
        pass: u64,
        done: u64,
        live: &[LiveRequest],
    ) -> Option<Result<Line, LineFault>>
        requires { round ≤ 10000 }
        ensures line { Makes (pass_over self.old round pass live.now (find (λ r. nat_lt done r.cookie) live.now))
            result self.new }
        ensures ends { IsSome result → turn_rank self.new.turn < turn_rank (next_move.Run round pass done) }
    {
        match first_left(live, done) {
            Some(request) => self.run(round, pass, request),
            None if pass < PASSES => self.begin_pass(alloc, round, pass + 1, live),
            None => self.ask(alloc, round + 1),
        }
    }

    /// A pass begins; where no request is live, the next round does.
    fn begin_pass(
        &mut self,
        alloc: Global,
        round: u64,
        pass: u64,
        live: &[LiveRequest],
    ) -> Option<Result<Line, LineFault>>
        requires round { round ≤ 10000 }
        requires pass { pass ≤ 16 }
        ensures line { Makes (pass_begun self.old round pass live.now) result self.new }
        ensures ends { IsSome result → turn_rank self.new.turn ≤ (10000 - round) * span + (17 - pass) * 2 ^ 64 }
    {
        match live {
            [] => self.ask(alloc, round + 1),
            [first, ..] => self.run(round, pass, *first),
        }
    }

    /// A request is run.
    fn run(
        &mut self,
        round: u64,
        pass: u64,
        request: LiveRequest,
    ) -> Option<Result<Line, LineFault>>
        requires { round ≤ 10000 }
        ensures { Makes (ran self.old round pass request) result self.new }
    {
        self.turn = NextMove::Run {
            round,
            pass,
            done: request.cookie,
        };
        Some(Ok(Line::Run {
            actor: request.actor(),
            now: 0,
        }))
    }
}
