ghost use Rattle.std.specs.Prelude.{◌≡◌, ◌↔◌, [], false, IsTrue, OnErr, OnOk, IfOk};
ghost use Rattle.std.specs.FinMap as map;
ghost use Rattle.std.specs.FinSet as set;
ghost use Rattle.qs_replay_lines.specs.Tables.{GivesName, IsUsed, adds, names_settled};

use indexmap::IndexSet;
use qs_bytes::Memory;
use qs_cookies::UsedCookies;
use qs_part::event::Outcome;
use qs_script::SessionName;
use std::alloc::Global;
use std::collections::BTreeMap;
use std::marker::Model;

/// What the names of a script stand for. The number of a session's name is its place in the order in
/// which names came.
#[derive(Debug, Drop)]
pub struct Table {
    sessions: IndexSet<SessionName>,
    used: UsedCookies,
    /// The number of each request that isn't answered yet, by its session's number and its cookie.
    live: BTreeMap<(u32, u64), u64>,
}

impl Model for Table {
    ghost use Rattle.std.specs.FinMap.{from_entries};
    ghost use Rattle.qs_replay_lines.specs.Tables.{AreUsed, Names, coded_names};

    ghost Value = { Names };

    ghost coded = { coded_names };

    ghost view = { λ t. record { sessions = t.sessions.keys; used = t.used; live = from_entries t.live.entries } };

    ghost invariant = { λ t. AreUsed t.used t.live };
}

impl Table {
    /// No name stands for anything.
    pub fn new(alloc: Global) -> Self
        ensures { result ≡ record { sessions = []; used = set.empty; live = map.empty } }
    {
        Table {
            sessions: IndexSet::new(alloc),
            used: UsedCookies::new(alloc),
            live: BTreeMap::new(alloc),
        }
    }

    /// The number of a session's name, which is a new one where the name hadn't come. Refused memory
    /// leaves the table as it was.
    pub fn number(&mut self, name: SessionName) -> Result<u32, Memory>
        ensures ok { IfOk result (λ n. GivesName self.old name n self.new) }
        ensures err { OnErr result (self.new ≡ self.old) }
    {
        if let Some(place) = self.sessions.get_index_of(&name) {
            return as_number(place);
        }
        let number = as_number(self.sessions.len())?;
        self.sessions.insert(name)?;
        Ok(number)
    }

    /// Whether a session used a cookie.
    pub fn is_used(&self, session: u32, cookie: u64) -> bool
        ensures { IsTrue result ↔ IsUsed self.now session cookie }
    {
        self.used.contains(session, cookie)
    }

    /// The number of the request that a session made with a cookie, if it isn't answered yet.
    pub fn request(&self, session: u32, cookie: u64) -> Option<u64>
        ensures { result ≡ map.get self.now.live (session, cookie) }
    {
        self.live.get(&(session, cookie)).copied()
    }

    /// Notes a request that was made, by its number. Refused memory leaves the table as it was.
    pub fn make(&mut self, session: u32, cookie: u64, number: u64) -> Result<(), Memory>
        requires unused { set.contains self.old.used (session, cookie) ≡ false }
        ensures ok { OnOk result (self.new ≡ adds self.old session cookie number) }
        ensures err { OnErr result (self.new ≡ self.old) }
    {
        self.live.insert((session, cookie), number)?;
        match self.used.insert(session, cookie) {
            Ok(()) => Ok(()),
            Err(_) => {
                self.live.remove(&(session, cookie));
                Err(Memory)
            }
        }
    }

    /// Forgets the number of a request that was answered.
    pub fn settle(&mut self, key: Option<(u32, u64)>, outcome: &Outcome)
        ensures { self.new ≡ names_settled self.old key outcome.now }
    {
        match (key, outcome) {
            (Some(key), Outcome::Answered(..)) => {
                self.live.remove(&key);
            }
            _ => {}
        }
    }
}

/// A place as a session's number.
fn as_number(place: usize) -> Result<u32, Memory>
    ensures { IfOk result (λ n. n ≡ place) }
{
    if place < 1 << 32 {
        Ok(place as u32)
    } else {
        Err(Memory)
    }
}
