ghost use Rattle.std.specs.Prelude.{◌≡◌, ◌<◌, ℕ, Bool, List, Some, false, true, length as list_length};
ghost use Rattle.qs_script.specs.declared.line.Line.{Line as ALine};
ghost use Rattle.qs_script.specs.declared.line.Line.TheVariants as line;
ghost use Rattle.qs_replay_lines.specs.Effects.{IsAsked, IsPlanned, PlaysLine, news_of as the_news};

use crate::desk::{Desk, actor_for, happen, lost_bytes, room_for, run_all, run_lines, step_lines};
use crate::stop::Stop;
use crate::told::{LineTold, ending_of, quiet};
use qs_bytes::{Ask, Bytes, Kind, Name};
use qs_outside::{CrashChoice, Disk, Fail, RiggedDisk};
use qs_part::event::{Event, Outcome};
use qs_script::{Line, ScriptActor, SessionName, SessionNews, put_session};

/// The request of a line. Its flags fit its kind.
fn ask_of(kind: Kind, fua: bool, cookie: u64, offset: u64, length: u64) -> Ask
    ensures { result ≡ record {
      kind = kind;
      fua = fua;
      flags_fit = true;
      cookie = cookie;
      offset = offset;
      length = length;
    } }
{
    Ask {
        kind,
        fua,
        flags_fit: true,
        cookie,
        offset,
        length,
    }
}

impl<D: Disk + Drop> Desk<D> {
    /// `session S EXPORT`
    pub fn attach(&mut self, session: SessionName, export: Name) -> Result<LineTold, Stop>
        ensures { PlaysLine D.seen self.old (line.Session session export) false result self.new }
    {
        let number = self.table.number(session)?;
        let event = Event::Attach {
            session: number,
            name: export,
        };
        let outcome = happen(&mut self.world, event)?;
        put_session(self.alloc, &mut self.out, session, news_of(&outcome))?;
        Ok(quiet())
    }

    /// `end S`
    pub fn end(&mut self, session: SessionName) -> Result<LineTold, Stop>
        ensures { PlaysLine D.seen self.old (line.End session) false result self.new }
    {
        let number = self.table.number(session)?;
        happen(&mut self.world, Event::Leave { session: number })?;
        put_session(self.alloc, &mut self.out, session, SessionNews::Left)?;
        Ok(quiet())
    }

    /// A session asks for something, by the line of a request.
    fn ask(&mut self, session: SessionName, ask: Ask, body: Option<Bytes>) -> Result<LineTold, Stop>
        ensures { (l : ALine) (lost : Bool) → IsAsked l lost session ask body →
            PlaysLine D.seen self.old l lost result self.new }
    {
        let number = self.table.number(session)?;
        if self.table.is_used(number, ask.cookie) {
            return Err(Stop::BadLine);
        }
        let event = Event::Ask {
            session: number,
            ask,
            body,
        };
        let request = match happen(&mut self.world, event)? {
            Outcome::Made(request) => request,
            _ => unreachable!(),
        };
        self.table.make(number, ask.cookie, request)?;
        Ok(quiet())
    }

    /// `read S C OFFSET LENGTH`
    pub fn read(
        &mut self,
        session: SessionName,
        cookie: u64,
        offset: u64,
        length: u64,
    ) -> Result<LineTold, Stop>
        ensures { PlaysLine D.seen self.old (line.Read session cookie offset length) false result self.new }
    {
        let body = room_for(self.alloc, length);
        let ask = ask_of(Kind::Read, false, cookie, offset, length);
        self.ask(session, ask, body)
    }

    /// `write S C OFFSET BYTES [fua]`
    pub fn write(
        &mut self,
        session: SessionName,
        cookie: u64,
        offset: u64,
        body: Bytes,
        fua: bool,
    ) -> Result<LineTold, Stop>
        ensures { PlaysLine D.seen self.old (line.Write session cookie offset body fua) false result self.new }
    {
        let ask = ask_of(Kind::Write, fua, cookie, offset, body.len() as u64);
        self.ask(session, ask, Some(body))
    }

    /// `write S C OFFSET BYTES [fua]`, where memory was refused for the bytes: the request has none.
    pub fn write_lost(
        &mut self,
        session: SessionName,
        cookie: u64,
        offset: u64,
        length: u64,
        fua: bool,
    ) -> Result<LineTold, Stop>
        ensures { (bytes : List ℕ) → list_length bytes ≡ length →
            PlaysLine D.seen self.old (line.Write session cookie offset bytes fua) true result self.new }
    {
        let body = lost_bytes(self.alloc, length);
        let ask = ask_of(Kind::Write, fua, cookie, offset, length);
        self.ask(session, ask, body)
    }

    /// `zero S C OFFSET LENGTH [fua]`
    pub fn zero(
        &mut self,
        session: SessionName,
        cookie: u64,
        offset: u64,
        length: u64,
        fua: bool,
    ) -> Result<LineTold, Stop>
        ensures { PlaysLine D.seen self.old (line.Zero session cookie offset length fua) false result self.new }
    {
        let ask = ask_of(Kind::Zero, fua, cookie, offset, length);
        self.ask(session, ask, None)
    }

    /// `trim S C OFFSET LENGTH`
    pub fn trim(
        &mut self,
        session: SessionName,
        cookie: u64,
        offset: u64,
        length: u64,
    ) -> Result<LineTold, Stop>
        ensures { PlaysLine D.seen self.old (line.Trim session cookie offset length) false result self.new }
    {
        let ask = ask_of(Kind::Trim, false, cookie, offset, length);
        self.ask(session, ask, None)
    }

    /// `flush S C`
    pub fn flush(&mut self, session: SessionName, cookie: u64) -> Result<LineTold, Stop>
        ensures { PlaysLine D.seen self.old (line.Flush session cookie) false result self.new }
    {
        self.ask(session, ask_of(Kind::Flush, false, cookie, 0, 0), None)
    }

    /// `step ACTOR [READING]`
    pub fn step(&mut self, who: &ScriptActor, now: u64) -> Result<LineTold, Stop>
        ensures { PlaysLine D.seen self.old (line.Step who.now now) false result self.new }
    {
        let found = actor_for(&mut self.table, who)?;
        let event = Event::Step {
            actor: found.actor,
            now,
        };
        let outcome = happen(&mut self.world, event)?;
        let text = step_lines(self.alloc, who, &outcome)?;
        self.out.append(text.as_slice())?;
        self.table.settle(found.key, &outcome);
        Ok(LineTold {
            steps: 1,
            ended: ending_of(&outcome),
        })
    }

    /// `run ACTOR [READING]`
    pub fn run(&mut self, who: &ScriptActor, now: u64) -> Result<LineTold, Stop>
        ensures { PlaysLine D.seen self.old (line.Run who.now now) false result self.new }
    {
        let found = actor_for(&mut self.table, who)?;
        let made = run_all(&mut self.world, found.actor, now)?;
        let text = run_lines(self.alloc, who, &made.last)?;
        self.out.append(text.as_slice())?;
        self.table.settle(found.key, &made.last);
        Ok(LineTold {
            steps: made.count,
            ended: ending_of(&made.last),
        })
    }
}

/// What became of a session, by the outcome of its Attach.
fn news_of(outcome: &Outcome) -> SessionNews
    ensures { result ≡ the_news outcome.now }
{
    match outcome {
        Outcome::Attached(info) => SessionNews::Attached(info.size, info.writable),
        Outcome::NoExport => SessionNews::Refused,
        Outcome::Crowded => SessionNews::Crowded,
        _ => SessionNews::Left,
    }
}

impl<D: RiggedDisk + Drop> Desk<D> {
    /// `fail STRIPE KIND`
    fn plan(&mut self, stripe: u64, kind: Fail) -> Result<LineTold, Stop>
        requires { stripe < 8 }
        ensures { PlaysLine D.Disk.seen self.old (line.Fail stripe kind) false result self.new }
    {
        self.world.plan(stripe as u8, kind);
        Ok(quiet())
    }

    /// `crash N [B=N]...`
    fn crash(&mut self, choice: &CrashChoice) -> Result<LineTold, Stop>
        ensures { PlaysLine D.Disk.seen self.old (line.Crash choice.now) false result self.new }
    {
        let Some(export) = Name::of(b"disk") else {
            unreachable!();
        };
        self.world.crash(choice);
        let writable = !self.world.is_read_only();
        match self.world.export_disk(export, writable) {
            Ok(()) => Ok(quiet()),
            Err(_) => Err(Stop::Memory),
        }
    }

    /// One line is done, and told in numbers.
    pub fn play(&mut self, line: Line) -> Result<LineTold, Stop>
        requires { IsPlanned line }
        ensures { PlaysLine D.Disk.seen self.old line false result self.new }
    {
        match line {
            Line::Nothing => Ok(quiet()),
            Line::Session { session, export } => self.attach(session, export),
            Line::End { session } => self.end(session),
            Line::Read {
                session,
                cookie,
                offset,
                length,
            } => self.read(session, cookie, offset, length),
            Line::Write {
                session,
                cookie,
                offset,
                body,
                fua,
            } => self.write(session, cookie, offset, body, fua),
            Line::Zero {
                session,
                cookie,
                offset,
                length,
                fua,
            } => self.zero(session, cookie, offset, length, fua),
            Line::Trim {
                session,
                cookie,
                offset,
                length,
            } => self.trim(session, cookie, offset, length),
            Line::Flush { session, cookie } => self.flush(session, cookie),
            Line::Step { actor, now } => self.step(&actor, now),
            Line::Run { actor, now } => self.run(&actor, now),
            Line::Fail { stripe, kind } => self.plan(stripe, kind),
            Line::Crash(choice) => self.crash(&choice),
        }
    }
}
