ghost use Rattle.std.specs.Prelude.{◌≡◌, ◌++◌, ℕ, Bool, List, IfOk};
ghost use Rattle.std.specs.List.{flat_map};
ghost use Rattle.qs_nbd_wire.specs.Replies.{reply_bytes};
ghost use Rattle.qs_nbd_handshake.specs.Answers.{CanTell, export_text, info_text, informations, name_text, names_text, text_of};
ghost use Rattle.qs_nbd_handshake.specs.Answers.{export_step, go_step, mode_behind as mode_after, phase_behind, hand_step_of};
ghost use Rattle.qs_nbd_handshake.specs.Stages.{IsSound, phase_of};
ghost use Rattle.qs_nbd_handshake.specs.Wishes.{want_of};

use crate::event::{HandStep, Told};
use crate::stage::Stage;
use crate::wish::{ABORT, GO, INFO, LIST, STRUCTURED_REPLY, Wish};
use qs_bytes::{Bytes, Memory, Mode, Name, NameList};
use qs_nbd_wire::{
    ExportInfo2, OptionError, OptionReply, flags_told, put_export_answer, put_reply,
};
use qs_status::SessionEnd;
use std::alloc::Global;

/// The bytes that answer an option.
pub fn answer_to(alloc: Global, mode: &Mode, wish: &Wish, told: &Told) -> Result<Bytes, Memory>
    requires { CanTell (want_of wish.now) told.now }
    ensures { IfOk result (λ text. text ≡ text_of mode.now wish.now told.now) }
{
    match wish {
        Wish::Export(_) => export_name(alloc, mode, told),
        Wish::Abort => one(alloc, ABORT, &OptionReply::Ack),
        Wish::List => names(alloc, told),
        Wish::Info(inquiry) => info(alloc, INFO, mode.structured, inquiry.sizes, told),
        Wish::Go(inquiry) => info(alloc, GO, mode.structured, inquiry.sizes, told),
        Wish::Structured => one(alloc, STRUCTURED_REPLY, &OptionReply::Ack),
        Wish::Malformed(number) => one(alloc, *number, &OptionReply::Refused(OptionError::Invalid)),
        Wish::Unknown(number) => one(
            alloc,
            *number,
            &OptionReply::Refused(OptionError::Unsupported),
        ),
    }
}

/// One reply.
fn one(alloc: Global, number: u32, reply: &OptionReply) -> Result<Bytes, Memory>
    ensures { IfOk result (λ text. text ≡ reply_bytes number reply.now) }
{
    let mut text = Bytes::of(Vec::new(alloc));
    put_reply(alloc, &mut text, number, reply)?;
    Ok(text)
}

/// What EXPORT_NAME is answered.
fn export_name(alloc: Global, mode: &Mode, told: &Told) -> Result<Bytes, Memory>
    ensures { IfOk result (λ text. text ≡ export_text mode.now told.now) }
{
    let mut text = Bytes::of(Vec::new(alloc));
    if let Told::Info(info) = told {
        put_export_answer(alloc, &mut text, mode, info)?;
    }
    Ok(text)
}

/// What LIST is answered.
fn names(alloc: Global, told: &Told) -> Result<Bytes, Memory>
    requires { CanTell (want_of Wish.List) told.now }
    ensures { IfOk result (λ text. text ≡ names_text told.now) }
{
    match told {
        Told::Names(names) => listed(alloc, names.0.as_slice()),
        _ => unreachable!(),
    }
}

/// A reply for each name, and an ACK.
fn listed(alloc: Global, names: &[Name]) -> Result<Bytes, Memory>
    ensures { IfOk result (λ text. text ≡ flat_map name_text names.now ++ reply_bytes 3 OptionReply.Ack) }
{
    let mut text = Bytes::of(Vec::new(alloc));
    for name in names {
        put_reply(alloc, &mut text, LIST, &OptionReply::Server(*name))?;
    }
    put_reply(alloc, &mut text, LIST, &OptionReply::Ack)?;
    Ok(text)
}

/// What INFO and GO are answered.
fn info(
    alloc: Global,
    number: u32,
    structured: bool,
    sizes: bool,
    told: &Told,
) -> Result<Bytes, Memory>
    ensures { IfOk result (λ text. text ≡ info_text number structured sizes told.now) }
{
    match told {
        Told::Info(info) => informations(alloc, number, structured, sizes, info),
        Told::Crowded => one(alloc, number, &OptionReply::Refused(OptionError::Policy)),
        _ => one(alloc, number, &OptionReply::Refused(OptionError::Unknown)),
    }
}

/// The informations on an export, and an ACK.
fn informations(
    alloc: Global,
    number: u32,
    structured: bool,
    sizes: bool,
    info: &ExportInfo2,
) -> Result<Bytes, Memory>
    ensures { IfOk result (λ text.
        text ≡ informations number structured sizes info.now ++ reply_bytes number OptionReply.Ack) }
{
    let mut text = Bytes::of(Vec::new(alloc));
    let export = OptionReply::Export {
        size: info.size,
        flags: flags_told(info, structured),
    };
    put_reply(alloc, &mut text, number, &export)?;
    if sizes {
        put_reply(alloc, &mut text, number, &OptionReply::BlockSize)?;
    }
    put_reply(alloc, &mut text, number, &OptionReply::Ack)?;
    Ok(text)
}

/// How an option goes on.
pub fn step(mode: &Mode, wish: &Wish, told: &Told) -> HandStep
    ensures { result ≡ hand_step_of mode.now wish.now told.now }
{
    match wish {
        Wish::Export(_) => after_export(mode, told),
        Wish::Abort => HandStep::Close(SessionEnd::Aborted),
        Wish::Go(_) => after_go(mode, told),
        _ => HandStep::Stay,
    }
}

/// How EXPORT_NAME goes on.
fn after_export(mode: &Mode, told: &Told) -> HandStep
    ensures { result ≡ export_step mode.now told.now }
{
    match told {
        Told::Info(_) => HandStep::Transmit(*mode),
        Told::Crowded => HandStep::Close(SessionEnd::Crowded),
        _ => HandStep::Close(SessionEnd::NoExport),
    }
}

/// How GO goes on.
fn after_go(mode: &Mode, told: &Told) -> HandStep
    ensures { result ≡ go_step mode.now told.now }
{
    match told {
        Told::Info(_) => HandStep::Transmit(*mode),
        _ => HandStep::Stay,
    }
}

/// The mode behind an option.
pub fn mode_behind(mode: &Mode, wish: &Wish) -> Mode
    ensures { result ≡ mode_after mode.now wish.now }
{
    match wish {
        Wish::Structured => Mode {
            no_zeroes: mode.no_zeroes,
            structured: true,
        },
        _ => *mode,
    }
}

/// The stage behind an answer.
pub fn stage_behind(step: &HandStep) -> Stage
    ensures phase { (buffer : List ℕ) → phase_of buffer result ≡ phase_behind step.now }
    ensures sound { (fixed : Bool) → (buffer : List ℕ) → IsSound fixed buffer result }
{
    match step {
        HandStep::Stay => Stage::Option(0),
        HandStep::Transmit(_) => Stage::Over(SessionEnd::Done),
        HandStep::Close(end) => Stage::Over(*end),
    }
}
