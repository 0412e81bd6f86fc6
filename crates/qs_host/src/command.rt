ghost use Rattle.std.specs.Prelude.{◌≡◌, IfErr, IfSome, IsNone};
ghost use Rattle.qs_host.specs.Exits.{IsNoFile};
ghost use Rattle.qs_host.specs.Abouts.{AsksAbout};
ghost use Rattle.qs_host.specs.declared.command.About.{About as Question};

use crate::start_fault::{StartFault, fault_of_words};
use std::env;
use std::rt::Env;

/// The words behind the program's name. NotText where one isn't UTF-8; never NotOpened.
pub fn words<R: Env + AllocGlobal>(rt: &R) -> Result<Vec<String>, StartFault>
    ensures { IfErr result IsNoFile }
{
    let mut words = Vec::new(rt.alloc());
    let all = match env::args(rt) {
        Ok(all) => all,
        Err(error) => return Err(fault_of_words(error)),
    };
    for word in all.skip(1) {
        words.push(word)?;
    }
    Ok(words)
}

/// What a program may be asked to tell of itself.
#[derive(Clone, Copy, Debug, PartialEq, Eq)]
pub enum About {
    /// How it is used.
    Help,
    /// Its version.
    Version,
}

/// What the words ask a program to tell of itself: `--help` or `--version` as the only word.
pub fn asked(words: &[String]) -> Option<About>
    ensures some { IfSome result (AsksAbout words.now) }
    ensures none { IsNone result → (question : Question) → ¬ AsksAbout words.now question }
{
    match words {
        [word] if word.as_str() == "--help" => Some(About::Help),
        [word] if word.as_str() == "--version" => Some(About::Version),
        _ => None,
    }
}
