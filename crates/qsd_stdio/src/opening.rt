ghost use Rattle.std.specs.Prelude.{◌≡◌, IsOk, None};
ghost use Rattle.qs_stdio_words.specs.Words.{command};

use qs_host::{FileDisk, StartFault, file_disks};
use qs_stdio_words::stdio_words;
use std::alloc::Global;
use std::fs::File;
use std::rt::Files;
use std::sync::Wait;

/// The disks that the words name; none, and no fault, where they aren't of the command's form.
pub fn disks_of<R: Files<File = File> + Wait + Copy>(
    rt: &R,
    alloc: Global,
    words: &[String],
) -> Result<Vec<FileDisk<R>>, StartFault>
    ensures { command words.now ≡ None → IsOk result }
{
    match stdio_words(words) {
        Some(told) => file_disks(
            rt,
            alloc,
            words[told.image].as_str(),
            told.align,
            told.read_only,
        ),
        None => Ok(Vec::new(alloc)),
    }
}
