//! Whole requests of the core, one after the other, to be timed from outside.

use qs_bytes::{Ask, Bytes, Kind, Memory, Name, Verdict};
use qs_outside::QuietDisk;
use qs_part::event::{Actor, Event, Outcome};
use qs_world::world::World;
use std::alloc::Global;

/// The bytes of a block.
const ALIGN: u32 = 512;

/// The bytes of the image.
const SIZE: u64 = 1 << 20;

/// The session that asks.
const SESSION: u32 = 1;

/// More steps than any of these requests makes.
const STEPS: u32 = 1000;

fn disks(alloc: Global) -> Result<Vec<QuietDisk>, Memory> {
    let mut disks = Vec::new(alloc);
    for stripe in 0..8 {
        disks.push(QuietDisk::new(alloc, stripe, ALIGN, SIZE)?)?;
    }
    Ok(disks)
}

/// A core with one session at a writable export of the whole image.
fn world(alloc: Global) -> Result<World<QuietDisk>, Memory> {
    let Some(name) = Name::of(b"disk") else {
        return Err(Memory);
    };
    let mut world = match World::new(alloc, disks(alloc)?, name, false) {
        Ok(world) => world,
        Err(_) => return Err(Memory),
    };
    world.export_disk(name, true)?;
    match world.step(Event::Attach {
        session: SESSION,
        name,
    }) {
        Outcome::Attached(_) => Ok(world),
        _ => Err(Memory),
    }
}

/// Steps a request to its answer.
fn answer(world: &mut World<QuietDisk>, number: u64) -> Option<Verdict> {
    for _ in 0..STEPS {
        let actor = Actor::Request(number);
        match world.step(Event::Step { actor, now: 0 }) {
            Outcome::Moved(_) => {}
            Outcome::Answered(verdict, _) => return Some(verdict),
            _ => return None,
        }
    }
    None
}

/// One request, from its Ask to its answer.
fn serve(world: &mut World<QuietDisk>, ask: Ask, body: Option<Bytes>) -> Option<Verdict> {
    let session = SESSION;
    match world.step(Event::Ask { session, ask, body }) {
        Outcome::Made(number) => answer(world, number),
        _ => None,
    }
}

fn ask(kind: Kind, offset: u64, length: u64) -> Ask {
    Ask {
        kind,
        fua: false,
        flags_fit: true,
        cookie: 0,
        offset,
        length,
    }
}

/// So many READs of so many bytes, each into the buffer of the one before.
pub fn reads(alloc: Global, length: u64, rounds: u64) -> Result<u64, Memory> {
    let mut world = world(alloc)?;
    let mut buffer = Bytes::of(vec![in alloc; 0; length as usize]?);
    let mut fine: u64 = 0;
    for _ in 0..rounds {
        let read = ask(Kind::Read, 0, length);
        match serve(&mut world, read, Some(buffer)) {
            Some(Verdict::Got(bytes)) => buffer = bytes,
            _ => return Ok(fine),
        }
        fine = fine.wrapping_add(1);
    }
    Ok(fine)
}

/// So many FLUSHes, of stripes that are clean.
pub fn flushes(alloc: Global, rounds: u64) -> Result<u64, Memory> {
    let mut world = world(alloc)?;
    let mut fine: u64 = 0;
    for _ in 0..rounds {
        match serve(&mut world, ask(Kind::Flush, 0, 0), None) {
            Some(Verdict::Fine) => fine = fine.wrapping_add(1),
            _ => return Ok(fine),
        }
    }
    Ok(fine)
}
