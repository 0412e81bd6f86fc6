ghost use Rattle.std.specs.Prelude.{◌≡◌, MatchOption, OnErr, OnOk};
ghost use Rattle.std.specs.FinSet as set;
ghost use Rattle.std.specs.BTreeMap.{IsOrdered};
ghost use Rattle.qs_cookies.specs.Used.{AreApart, HasNoneBefore, IsBefore, IsEndBehind, IsInRun, IsStart, by_session};

use qs_bytes::Memory;
use std::alloc::Global;
use std::collections::BTreeMap;
use std::marker::Model;

/// Which cookies each session used. Cookies that follow each other are one run, so what is kept grows
/// with the gaps between them and not with their number.
#[derive(Debug, Drop)]
pub struct UsedCookies {
    /// The last cookie of each run, by its session's number and its first cookie.
    runs: BTreeMap<(u32, u64), u64>,
}

impl Model for UsedCookies {
    ghost use Rattle.std.specs.FinSet.{FinSet, code, from_list};
    ghost use Rattle.std.specs.Coded.{coded_ℕ, coded×};
    ghost use Rattle.qs_cookies.specs.Used.{AreApart as KeepApart, by_session as order, cookies_of};

    ghost Value = { FinSet order };

    ghost coded = { code (coded× coded_ℕ coded_ℕ) };

    ghost view = { λ u. from_list (cookies_of u.runs.entries) };

    ghost invariant = { λ u. KeepApart u.runs };
}

/// The last run of a session that begins at a cookie or before it: its first and its last cookie.
fn run_before(runs: &BTreeMap<(u32, u64), u64>, session: u32, cookie: u64) -> Option<(u64, u64)>
    ensures found { MatchOption result
        (HasNoneBefore runs.now session cookie)
        (λ run. IsBefore runs.now session cookie run.0 run.1) }
    ensures ordered { IsOrdered by_session runs.now }
{
    match runs.range(..=(session, cookie)).next_back() {
        Some((start, last)) if start.0 == session => Some((start.1, *last)),
        _ => None,
    }
}

/// Where the run of a new cookie begins: where the run begins that ends right before it, or at itself.
/// None where the cookie is in a run.
fn start_for(runs: &BTreeMap<(u32, u64), u64>, session: u32, cookie: u64) -> Option<u64>
    requires { AreApart runs.now }
    ensures found { MatchOption result
        (IsInRun runs.now session cookie)
        (λ first. IsStart runs.now session cookie first) }
    ensures ordered { IsOrdered by_session runs.now }
{
    match run_before(runs, session, cookie) {
        Some((_, last)) if cookie <= last => None,
        Some((first, last)) if cookie - last == 1 => Some(first),
        _ => Some(cookie),
    }
}

/// The last cookie of the run that begins right behind a cookie, or that cookie where none does.
fn end_behind(runs: &BTreeMap<(u32, u64), u64>, session: u32, cookie: u64) -> u64
    ensures { IsEndBehind runs.now session cookie result }
{
    let Some(next) = cookie.checked_add(1) else {
        return cookie;
    };
    match runs.get(&(session, next)) {
        Some(last) => *last,
        None => cookie,
    }
}

impl UsedCookies {
    /// No cookie was used.
    pub fn new(alloc: Global) -> Self
        ensures { result ≡ set.empty }
    {
        UsedCookies {
            runs: BTreeMap::new(alloc),
        }
    }

    /// Whether a session used a cookie.
    pub fn contains(&self, session: u32, cookie: u64) -> bool
        ensures { result ≡ set.contains self.now (session, cookie) }
    {
        start_for(&self.runs, session, cookie).is_none()
    }

    /// Notes that a session used a cookie. Refused memory leaves all as it was.
    pub fn insert(&mut self, session: u32, cookie: u64) -> Result<(), Memory>
        ensures ok { OnOk result (self.new ≡ set.insert self.old (session, cookie)) }
        ensures err { OnErr result (self.new ≡ self.old) }
    {
        let Some(first) = start_for(&self.runs, session, cookie) else {
            return Ok(());
        };
        let last = end_behind(&self.runs, session, cookie);
        self.runs.insert((session, first), last)?;
        if last > cookie {
            self.runs.remove(&(session, cookie + 1));
        }
        Ok(())
    }
}
