use qs_qmp_arguments::Class;
use serde_json::Value;
use std::alloc::AllocError;

/// Why a message is no command that can be done.
#[derive(Debug, Drop)]
pub enum QmpFault {
    /// It is refused: the error's class and words, and the message's id.
    Refused {
        class: Class,
        desc: String,
        id: Option<Value>,
    },
    /// Memory was refused.
    Memory,
}

impl From<AllocError> for QmpFault {
    ghost use Rattle.std.specs.Prelude.{◌≡◌};
    ghost use Rattle.qs_qmp.specs.declared.fault.QmpFault.TheVariants as faults;

    ghost from_gives = { λ refused fault. fault ≡ faults.Memory };

    fn from(_refused: AllocError) -> QmpFault {
        QmpFault::Memory
    }
}
