//! Laws of the definitions that contracts cite. A function here does nothing: its contract is the law, and a caller
//! that wants the law calls it.
ghost use Rattle.louds.specs.Laws.{OneDepth, OneParent, TreesHaveParents};

/// A node is a child of one node alone, at one index.
pub fn one_parent()
    ensures { OneParent }
{}

/// A list of degrees is a tree exactly where it has one child for each node but the root, and each of these is a child
/// of a node before it.
pub fn trees_have_parents()
    ensures { TreesHaveParents }
{}

/// A node stands one number of levels below the root.
pub fn one_depth()
    ensures { OneDepth }
{}
