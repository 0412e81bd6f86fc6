ghost use Rattle.std.specs.Prelude.{◌≡◌, ℕ, ◌+◌, ◌≤◌, Bool, List, [], ◌∷◌, ◌++◌, option_map};
ghost use Rattle.qs_part.specs.Histories.{Call, StandsFor};
ghost use Rattle.qs_part.specs.declared.graph.Route.{Route as Way};
ghost use Rattle.qs_part.specs.declared.graph.GraphOp.{GraphOp};
ghost use Rattle.qs_part.specs.declared.graph.GraphOp.TheVariants.{Route};
ghost use Rattle.qs_part.specs.declared.graph.GraphReply.{GraphReply};
ghost use Rattle.qs_part.specs.declared.graph.GraphReply.TheVariants.{Routed};
ghost use Rattle.qs_graph.specs.declared.export.Export.{Export as Standing};
ghost use Rattle.qs_graph.specs.Exports.{conflicting_pair, first_against, standing};
ghost use Rattle.qs_graph.specs.Table.{GraphValue, route_of, May};
ghost use Rattle.qs_graph.specs.History.{lawful_call, StandsForFresh, IsAllowed, SameExport, StandsAt};

/// In every history of a new graph the graph is allowed.
pub fn allowed()
    ensures { (size : ℕ) (file : List ℕ) (read_only : Bool) (cs : List (Call GraphOp GraphReply)) (v : GraphValue) →
        StandsForFresh size file read_only cs v → IsAllowed v }
{}

/// In every history of a new graph: the users of the file node are the standing exports in the order
/// in which they were made, and a new one last. The first pair of them that conflicts is the first
/// standing one that the new one conflicts with, and the new one.
pub fn first_pair()
    ensures { (size : ℕ) (file : List ℕ) (read_only : Bool) (cs : List (Call GraphOp GraphReply)) (v : GraphValue)
        (new : Standing) → StandsForFresh size file read_only cs v →
        conflicting_pair (standing v.places ++ new ∷ [])
        ≡ option_map (λ (x : Standing). (x, new)) (first_against v.places new) }
{}

/// In every history of a new graph every way lies inside the image.
pub fn inside()
    ensures { (size : ℕ) (file : List ℕ) (read_only : Bool) (cs : List (Call GraphOp GraphReply)) (v : GraphValue)
        (e : ℕ)
        (way : Way) → StandsForFresh size file read_only cs v → May v (Route e) (Routed way) →
        way.offset + way.size ≤ size }
{}

/// In every history an export that stands keeps its place, with or without clients, and each Route
/// of that place answers for it.
pub fn stays()
    ensures place { (opening : GraphValue) (cs : List (Call GraphOp GraphReply)) (v : GraphValue) (e : ℕ)
        (x : Standing) →
        StandsFor lawful_call opening cs v → StandsAt opening e x → (y : Standing) × (StandsAt v e y × SameExport x y) }
    ensures way { (opening : GraphValue) (cs : List (Call GraphOp GraphReply)) (v : GraphValue) (e : ℕ) (x : Standing)
        (reply : GraphReply) → StandsFor lawful_call opening cs v → StandsAt opening e x →
        May v (Route e) reply → reply ≡ Routed (route_of opening.size x) }
{}
