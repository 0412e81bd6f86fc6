ghost use Rattle.std.specs.Prelude.{◌≡◌, option_map, string_bytes};
ghost use Rattle.serde_json.specs.View.{members_view};
ghost use Rattle.qs_qmp_arguments.specs.Arguments.{first_not, is_key, is_limit_key, keys_in, keys_of, seen_data};

use serde_json::{Map, Value};

/// The keys that an object may have: a message, a command's arguments, or an object within them; the image file,
/// a listener and its address, a character device and a monitor, which options of the daemon tell. A node that is
/// there already (`again`) doesn't take all of a new one's.
#[derive(Clone, Copy, Debug, PartialEq, Eq)]
pub enum ArgumentKeys {
    Message,
    Capabilities,
    Raw { again: bool },
    Throttle { again: bool },
    Node,
    Reopen,
    ObjectAdd,
    Object,
    ExportAdd,
    ExportDel,
    Nothing,
    Limits,
    File,
    Listener,
    Inet,
    Unix,
    Chardev,
    Monitor,
}

impl ArgumentKeys {
    /// Whether the key is among them.
    fn has(self, key: &str) -> bool
        ensures { result ≡ is_key self key.now }
    {
        match self {
            ArgumentKeys::Message => matches!(key, "execute" | "arguments" | "id"),
            ArgumentKeys::Capabilities => key == "enable",
            ArgumentKeys::Raw { again } => is_raw_key(key, again),
            ArgumentKeys::Throttle { again } => is_throttle_key(key, again),
            ArgumentKeys::Node => key == "node-name",
            ArgumentKeys::Reopen => key == "options",
            ArgumentKeys::ObjectAdd => matches!(key, "qom-type" | "id" | "limits"),
            ArgumentKeys::Object => key == "id",
            ArgumentKeys::ExportAdd => is_export_key(key),
            ArgumentKeys::ExportDel => matches!(key, "id" | "mode"),
            ArgumentKeys::Nothing => false,
            ArgumentKeys::Limits => is_limit_key(key),
            ArgumentKeys::File => is_file_key(key),
            ArgumentKeys::Listener => key == "addr",
            ArgumentKeys::Inet => matches!(key, "type" | "host" | "port"),
            ArgumentKeys::Unix => matches!(key, "type" | "path"),
            ArgumentKeys::Chardev => matches!(key, "backend" | "id"),
            ArgumentKeys::Monitor => key == "chardev",
        }
    }

    /// The first key of an object, in rising order of bytes, that isn't among them.
    pub fn first_other(self, object: Option<&Value>) -> Option<&str>
        ensures { option_map (λ s. s.now) result
            ≡ first_not (λ k. is_key self k) (keys_in (seen_data object.entry)) }
    {
        match object {
            None => None,
            Some(value) => match value.as_object() {
                None => None,
                Some(members) => self.first_other_of(members),
            },
        }
    }

    fn first_other_of(self, members: &Map<String, Value>) -> Option<&str>
        ensures { option_map (λ s. s.now) result
            ≡ first_not (λ k. is_key self k) (keys_of (members_view members.now.entries)) }
    {
        for key in members.keys() {
            if !self.has(key.as_str()) {
                return Some(key.as_str());
            }
        }
        None
    }
}

fn is_raw_key(key: &str, again: bool) -> bool
    ensures { result ≡ is_key (ArgumentKeys.Raw again) key.now }
{
    matches!(key, "driver" | "node-name" | "file" | "offset" | "size")
        || (key == "read-only" && !again)
}

fn is_throttle_key(key: &str, again: bool) -> bool
    ensures { result ≡ is_key (ArgumentKeys.Throttle again) key.now }
{
    matches!(key, "driver" | "node-name" | "file" | "throttle-group")
        || (key == "read-only" && !again)
}

fn is_file_key(key: &str) -> bool
    ensures { result ≡ is_key ArgumentKeys.File key.now }
{
    matches!(
        key,
        "driver" | "node-name" | "filename" | "x-align" | "read-only"
    )
}

fn is_export_key(key: &str) -> bool
    ensures { result ≡ is_key ArgumentKeys.ExportAdd key.now }
{
    matches!(
        key,
        "type" | "id" | "node-name" | "name" | "writable" | "x-share"
    )
}

fn is_limit_key(key: &str) -> bool
    ensures { result ≡ is_limit_key key.now }
{
    matches!(
        key,
        "bps-total"
            | "bps-total-max"
            | "bps-total-max-length"
            | "bps-read"
            | "bps-read-max"
            | "bps-read-max-length"
            | "bps-write"
            | "bps-write-max"
            | "bps-write-max-length"
            | "iops-total"
            | "iops-total-max"
            | "iops-total-max-length"
            | "iops-read"
            | "iops-read-max"
            | "iops-read-max-length"
            | "iops-write"
            | "iops-write-max"
            | "iops-write-max-length"
            | "iops-size"
    )
}
