ghost use Rattle.std.specs.Prelude.{◌≡◌, None, IfOk};
ghost use Rattle.std.specs.Result.{result_err};
ghost use Rattle.qs_part.specs.Limits.{first_broken};

use qs_part::limits::{Limits, Rule};
use std::marker::Model;

/// Limits that break no rule, so that a throttle group takes them.
#[derive(Clone, Copy, Debug, PartialEq, Eq)]
pub struct CheckedLimits {
    limits: Limits,
}

impl Model for CheckedLimits {
    ghost use Rattle.std.specs.Prelude.{◌≡◌, None};
    ghost use Rattle.qs_part.specs.declared.limits.Limits.{Limits};
    ghost use Rattle.qs_part.specs.Limits.{first_broken};
    ghost use Rattle.qs_command.specs.Checked.{checked, checked_again};

    ghost Value = { Limits };

    ghost view = { λ c. c.limits };

    ghost invariant = { λ c. first_broken c.limits ≡ None };

    ghost inverse = { checked };

    ghost inverse_ok = { checked_again };
}

impl CheckedLimits {
    /// The limits, if they break no rule; else the first rule that they break.
    pub fn of(limits: Limits) -> Result<Self, Rule>
        ensures same { IfOk result (λ checked. checked ≡ limits) }
        ensures broken { result_err result ≡ first_broken limits }
    {
        match limits.check() {
            Ok(()) => Ok(CheckedLimits { limits }),
            Err(rule) => Err(rule),
        }
    }

    /// The limits themselves.
    pub fn limits(&self) -> Limits
        ensures same { result ≡ self.now }
        ensures none_broken { first_broken self.now ≡ None }
    {
        self.limits
    }
}
