ghost use Rattle.std.specs.Prelude.{◌≡◌, ◌<◌};
ghost use Rattle.qs_group.specs.Turns.{turn_of, passed_on};

use crate::queue::MEMBERS;
use qs_part::group::Dir;

/// Whose turn it is to read and to write.
#[derive(Clone, Copy, Debug, PartialEq, Eq)]
pub struct Turns {
    pub read: u8,
    pub write: u8,
}

impl Turns {
    /// The turn begins at member 0.
    pub const START: Turns = Turns { read: 0, write: 0 };

    /// The member from whom the next request of this direction is looked for.
    pub fn of(&self, dir: Dir) -> u8
        ensures { result ≡ turn_of self.now dir }
    {
        match dir {
            Dir::Read => self.read,
            Dir::Write => self.write,
        }
    }

    /// A request of `member` went: the turn is the next member's.
    pub fn pass_on(&mut self, dir: Dir, member: u8)
        requires { member < 64 }
        ensures { self.new ≡ passed_on self.old dir member }
    {
        let next = (member + 1) % MEMBERS;
        match dir {
            Dir::Read => self.read = next,
            Dir::Write => self.write = next,
        }
    }
}
