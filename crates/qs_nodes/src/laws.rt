ghost use Rattle.std.specs.Prelude.{◌≡◌, ◌≢◌, ℕ, ◌+◌, ◌^◌, ◌<◌, ◌≤◌, Bool, List, Option, Some, None, Result};
ghost use Rattle.qs_nodes.specs.declared.node.Kind.TheVariants.{File};
ghost use Rattle.qs_nodes.specs.declared.node.Node.{Node as Standing};
ghost use Rattle.qs_nodes.specs.declared.node.Refused.{Refused};
ghost use Rattle.qs_nodes.specs.declared.way.WayDown.{WayDown};
ghost use Rattle.qs_nodes.specs.Follows.{Follows, IsFromFile};
ghost use Rattle.qs_nodes.specs.Nodes.{user_of};
ghost use Rattle.qs_nodes.specs.Sizes.{export_over, KeepsSize};
ghost use Rattle.qs_nodes.specs.Table.{fresh, AddsGroup, AddsRaw, AddsThrottle, Deletes, EndsGroup, NodesValue, ReopensRaw, ReopensThrottle};
ghost use Rattle.qs_nodes.specs.Tree.{node_at, IsTree};
ghost use Rattle.qs_nodes.specs.Ways.{child_of, way_from};

/// Every way down lies inside the image, and has at most 8 throttle nodes.
pub fn inside()
    ensures { (v : NodesValue) (place : ℕ) (way : WayDown) → IsTree v → way_from v.nodes place ≡ Some way →
        (way.offset + way.size ≤ v.size) × (way.count ≤ 8) }
{}

/// The file node alone is a tree, and every operation keeps the tree, whatever it answers.
pub fn kept()
    ensures fresh { (size : ℕ) (file : List ℕ) (read_only : Bool) → size < 2 ^ 64 →
        IsTree (fresh size file read_only) }
    ensures add_raw { (v new : NodesValue) (name child : List ℕ) (offset : ℕ) (size : Option ℕ) (read_only : Bool)
        (r : Result ℕ Refused) → AddsRaw v name child offset size read_only r new → IsTree v → IsTree new }
    ensures add_throttle { (v new : NodesValue) (name child group : List ℕ) (read_only : Bool) (r : Result ℕ Refused) →
        AddsThrottle v name child group read_only r new → IsTree v → IsTree new }
    ensures del { (v new : NodesValue) (name : List ℕ) (export : Option (List ℕ)) (r : Result Unit Refused) →
        Deletes v name export r new → IsTree v → IsTree new }
    ensures reopen_raw { (v new : NodesValue) (name child : List ℕ) (offset : ℕ) (size : Option ℕ)
        (export : Option (List ℕ)) (r : Result Unit Refused) → ReopensRaw v name child offset size export r new →
        IsTree v → IsTree new }
    ensures reopen_throttle { (v new : NodesValue) (name child group : List ℕ) (r : Result Unit Refused) →
        ReopensThrottle v name child group r new → IsTree v → IsTree new }
    ensures group_add { (v new : NodesValue) (id : List ℕ) (r : Result ℕ Refused) →
        AddsGroup v id r new → IsTree v → IsTree new }
    ensures group_del { (v new : NodesValue) (id : List ℕ) (r : Result Unit Refused) →
        EndsGroup v id r new → IsTree v → IsTree new }
{}

/// A node that has a user keeps its place and its size, whatever an operation answers. `exports` tells
/// the first export over each place. Where no node goes and none is given another part, every node
/// keeps them.
pub fn sized()
    ensures add_raw { (v new : NodesValue) (name child : List ℕ) (offset : ℕ) (size : Option ℕ) (read_only : Bool)
        (r : Result ℕ Refused) → AddsRaw v name child offset size read_only r new →
        (place : ℕ) → KeepsSize v new place }
    ensures add_throttle { (v new : NodesValue) (name child group : List ℕ) (read_only : Bool) (r : Result ℕ Refused) →
        AddsThrottle v name child group read_only r new → (place : ℕ) → KeepsSize v new place }
    ensures del { (v new : NodesValue) (exports : ℕ → Option (List ℕ)) (name : List ℕ) (r : Result Unit Refused) →
        Deletes v name (export_over exports v.nodes name) r new →
        (place : ℕ) → user_of v.nodes place (exports place) ≢ None → KeepsSize v new place }
    ensures reopen_raw { (v new : NodesValue) (exports : ℕ → Option (List ℕ)) (name child : List ℕ) (offset : ℕ)
        (size : Option ℕ) (r : Result Unit Refused) →
        ReopensRaw v name child offset size (export_over exports v.nodes name) r new →
        (place : ℕ) → user_of v.nodes place (exports place) ≢ None → KeepsSize v new place }
    ensures reopen_throttle { (v new : NodesValue) (name child group : List ℕ) (r : Result Unit Refused) →
        ReopensThrottle v name child group r new → (place : ℕ) → KeepsSize v new place }
    ensures group_add { (v new : NodesValue) (id : List ℕ) (r : Result ℕ Refused) →
        AddsGroup v id r new → (place : ℕ) → KeepsSize v new place }
    ensures group_del { (v new : NodesValue) (id : List ℕ) (r : Result Unit Refused) →
        EndsGroup v id r new → (place : ℕ) → KeepsSize v new place }
{}

/// A way has the size of its node. The way from the file node is the whole image. The way from another
/// node adds to the way from its child what the node does: its offset, itself as the first throttle
/// node, and its name where it is read-only.
pub fn followed()
    ensures file { (v : NodesValue) (place : ℕ) (n : Standing) (way : WayDown) → IsTree v →
        node_at v.nodes place ≡ Some n → n.kind ≡ File → way_from v.nodes place ≡ Some way → IsFromFile n way }
    ensures size { (v : NodesValue) (place : ℕ) (n : Standing) (way : WayDown) → node_at v.nodes place ≡ Some n →
        way_from v.nodes place ≡ Some way → way.size ≡ n.size }
    ensures child { (v : NodesValue) (place child : ℕ) (n : Standing) (way below : WayDown) → IsTree v →
        node_at v.nodes place ≡ Some n → child_of n.kind ≡ Some child →
        way_from v.nodes place ≡ Some way → way_from v.nodes child ≡ Some below → Follows n way below }
{}
