ghost use Rattle.std.specs.Prelude.{List};
ghost use Rattle.gql_model.specs.World.{World};
ghost use Rattle.gql_model.specs.Depth.{IsNumbered, CollectingUnfolds, AncestorsUnfold, ObjectsUnfold, ForestsUnfold};
ghost use Rattle.gql_model.specs.declared.operation.Node.{Node};

/// The definitions of execution are the standard's recursions: where nodes are numbered in order of
/// the text, the bounds that make them end are never met.
pub fn bounds_are_never_met()
    ensures collecting { (w : World) (nodes : List Node) → IsNumbered nodes → CollectingUnfolds w nodes }
    ensures ancestors { (nodes : List Node) → IsNumbered nodes → AncestorsUnfold nodes }
    ensures objects { (w : World) (nodes : List Node) → IsNumbered nodes → ObjectsUnfold w nodes }
    ensures forests { (w : World) (nodes : List Node) → IsNumbered nodes → ForestsUnfold w nodes }
{}
