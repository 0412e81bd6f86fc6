ghost use Rattle.std.specs.Prelude.{◌≡◌};
ghost use Rattle.qs_host.specs.Exits.{end_exit, status_exit};

use qs_status::{SessionEnd, Status};

/// The exit status that stands for the end of a run.
pub fn exit_of(status: Status) -> u8
    ensures { result ≡ status_exit status }
{
    match status {
        Status::Done => 0,
        Status::Usage => 2,
        Status::OpenBad(_) => 3,
        Status::ReadFault => 4,
        Status::WriteFault => 5,
        Status::BadLine(_) => 6,
        Status::NotNext(_) => 7,
        Status::Spent => 8,
        Status::Memory => 9,
        Status::Ended(end) => exit_of_end(end),
    }
}

/// The exit status that stands for the end of a session.
fn exit_of_end(end: SessionEnd) -> u8
    ensures { result ≡ end_exit end }
{
    match end {
        SessionEnd::Done | SessionEnd::Aborted => 0,
        SessionEnd::LinkFault => 4,
        SessionEnd::Memory => 9,
        SessionEnd::Truncated => 10,
        SessionEnd::BadMagic(_) => 11,
        SessionEnd::BadFlags(_) => 12,
        SessionEnd::NotFixed(_) => 13,
        SessionEnd::TooLong(_) => 14,
        SessionEnd::NoExport | SessionEnd::Crowded => 15,
        SessionEnd::Shutting => 16,
    }
}
