ghost use Rattle.std.specs.Prelude.{◌≡◌, ◌++◌, [], ◌∷◌};
ghost use Rattle.qs_users.specs.Taken.{exported, made_perms, exports_together, perms_at};

use qs_exports::{Export, NewExport};
use qs_nodes::node::Node;
use qs_perm::UserPerms;

/// What an export takes of its node and shares there.
pub fn made_perms(made: &NewExport) -> UserPerms
    ensures { result ≡ made_perms made.now }
{
    UserPerms::export(made.writable, made.share_write)
}

fn standing_together(exports: &[Export], place: u8) -> UserPerms
    ensures { result ≡ exports_together (exported exports.now) place }
{
    let mut together = UserPerms::idle();
    for export in exports {
        if export.is_over_node(place) {
            together = together.join(made_perms(&export.made));
        }
    }
    together
}

fn exports_together(exports: &[Export], new: &NewExport, place: u8) -> UserPerms
    ensures { result ≡ exports_together (exported exports.now ++ new.now ∷ []) place }
{
    let standing = standing_together(exports, place);
    if new.node == place {
        standing.join(made_perms(new))
    } else {
        standing
    }
}

/// What the users of the node at a place take of it together, and what all of them share there, once a
/// new export stands as well (QEMU's `bdrv_default_perms`). `nodes` are those that were made after it,
/// in the order of making.
pub fn perms_at(nodes: &[Node], exports: &[Export], new: &NewExport, place: u8) -> UserPerms
    ensures { result ≡ perms_at nodes.now (exported exports.now ++ new.now ∷ []) place }
{
    match nodes {
        [] => exports_together(exports, new, place),
        [node, newer @ ..] => {
            let others = perms_at(newer, exports, new, place);
            if node.is_over(place) {
                perms_at(newer, exports, new, node.place).join(others)
            } else {
                others
            }
        }
    }
}
