//! The laws of the grammar on which other crates rest. Each function's contract is a law, and it does nothing when it is
//! called.

ghost use Rattle.gm_parse.specs.OneTree.{TextsHaveOneTree};

/// Two trees of one text are equal: the grammar leaves no choice of a tree.
pub fn texts_have_one_tree()
    ensures { TextsHaveOneTree }
{}
