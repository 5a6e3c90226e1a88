// What the definitions come to.
ghost use Rattle.std.specs.Prelude.{List, [], ◌++◌};
ghost use Rattle.sx_tree.specs.Events.{Element, MayFollow};
ghost use Rattle.sx_tree.specs.Growth.{ListsTree, IsInStep, MayCome, PlacesGrow};
ghost use Rattle.sx_tree.specs.OpenTree.{MayComeNext};
ghost use Rattle.sx_tree.specs.Places.{places_of};
ghost use Rattle.sx_tree.specs.Tree.{TreeEvent};

/// The list of nodes of events is that of their tree.
pub fn places()
    ensures { ListsTree }
{}

/// The depths of nodes go inward by one.
pub fn steps()
    ensures { (p : List (TreeEvent Element)) → MayCome [] p → IsInStep (places_of p) }
{}

/// More events only add nodes, and what has ended stays so.
pub fn growth()
    ensures { (p q : List (TreeEvent Element)) → PlacesGrow (places_of p) (places_of (p ++ q)) }
{}

/// What may follow events may come next in their tree.
pub fn follows()
    ensures { (p : List (TreeEvent Element)) (h : TreeEvent Element) → MayCome [] p → MayFollow p h
        → MayComeNext (places_of p) h }
{}
