ghost use Rattle.std.specs.Prelude.{◌≡◌};
ghost use Rattle.serde_json.specs.View.{view};
ghost use Rattle.qs_qmp_arguments.specs.Arguments.{seen_data};
ghost use Rattle.qs_qmp_arguments.specs.Limiting.{limits_checked, has_limit_keys, limit_in, limits_at, limits_in, limits_of, whole_or};
ghost use Rattle.qs_qmp_arguments.specs.Problems.{Gives};

use crate::arguments::argument;
use crate::fault::{ArgumentFault, Class, invalid, refusal};
use crate::keys::ArgumentKeys;
use crate::kinds::whole_of;
use qs_command::CheckedLimits;
use qs_part::limits::{Limit, Limits};
use serde_json::Value;
use std::alloc::Global;

/// A whole number, or what stands for an absent one.
fn whole_or(value: Option<&Value>, default: u64) -> Option<u64>
    ensures { result ≡ whole_or default (seen_data value.entry) }
{
    match value {
        None => Some(default),
        Some(value) => whole_of(value),
    }
}

#[tactic(auto, unfolding(crate::specs::Limiting::limit_in))]
fn limit_in(value: &Value, avg: &str, max: &str, burst_length: &str) -> Option<Limit>
    ensures { result ≡ limit_in avg.now max.now burst_length.now (view value.now) }
{
    let avg = whole_or(value.get(avg), 0)?;
    let max = whole_or(value.get(max), 0)?;
    let burst_length = whole_or(value.get(burst_length), 1)?;
    Some(Limit {
        avg,
        max,
        burst_length,
    })
}

#[tactic(auto, unfolding(crate::specs::Limiting::limits_in))]
fn limits_in(value: &Value) -> Option<Limits>
    ensures { result ≡ limits_in (view value.now) }
{
    let bps_total = limit_in(value, "bps-total", "bps-total-max", "bps-total-max-length")?;
    let bps_read = limit_in(value, "bps-read", "bps-read-max", "bps-read-max-length")?;
    let bps_write = limit_in(value, "bps-write", "bps-write-max", "bps-write-max-length")?;
    let iops_total = limit_in(
        value,
        "iops-total",
        "iops-total-max",
        "iops-total-max-length",
    )?;
    let iops_read = limit_in(value, "iops-read", "iops-read-max", "iops-read-max-length")?;
    let iops_write = limit_in(
        value,
        "iops-write",
        "iops-write-max",
        "iops-write-max-length",
    )?;
    let iops_size = whole_or(value.get("iops-size"), 0)?;
    Some(Limits {
        bps_total,
        bps_read,
        bps_write,
        iops_total,
        iops_read,
        iops_write,
        iops_size,
    })
}

fn has_limit_keys(value: &Value) -> bool
    ensures { result ≡ has_limit_keys (view value.now) }
{
    value.is_object() && ArgumentKeys::Limits.first_other(Some(value)).is_none()
}

fn limits_of(value: &Value) -> Option<Limits>
    ensures { result ≡ limits_of (view value.now) }
{
    if has_limit_keys(value) {
        limits_in(value)
    } else {
        None
    }
}

/// The limits that the argument `limits` says, none where it is left out. What is wrong in it makes it invalid.
pub(crate) fn limits_at(alloc: Global, arguments: Option<&Value>) -> Result<Limits, ArgumentFault>
    ensures { Gives (λ x. x) result (limits_at (seen_data arguments.entry)) }
{
    match argument(arguments, "limits") {
        None => Ok(Limits::NONE),
        Some(value) => match limits_of(value) {
            Some(limits) => Ok(limits),
            None => Err(invalid(alloc, "limits")),
        },
    }
}

/// Refuses limits that break a rule.
pub(crate) fn checked(alloc: Global, limits: Limits) -> Result<CheckedLimits, ArgumentFault>
    ensures { Gives (λ x. x) result (limits_checked limits) }
{
    match CheckedLimits::of(limits) {
        Ok(checked) => Ok(checked),
        Err(_) => Err(refusal(alloc, Class::GenericError, "Invalid limits", "", "")),
    }
}
