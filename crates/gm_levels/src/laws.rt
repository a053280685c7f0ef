//! What levels are, as a contract.

ghost use Rattle.gm_levels.specs.Walks.{LevelIsAWalk, LevelIsLeast, NoLevelNoWalk};

/// A node's level is the length of a walk from the root to it, and no walk to it is shorter; to a node without a
/// level there is no walk at all.
pub fn levels_are_least_walks()
    ensures walk { LevelIsAWalk }
    ensures least { LevelIsLeast }
    ensures none { NoLevelNoWalk }
{}
