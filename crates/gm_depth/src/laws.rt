//! That expressions are shallow and few Ifs stand within one another, as contracts of calls that do nothing.

ghost use Rattle.gm_depth.specs.Laws.{ProgramsAreShallow, ProgramsNestLittle, TreesAreShallow, TreesNestLittle};

/// Where the grammar and its limits accept the tokens of a text, no expression of its tree has more than 256 levels,
/// since each level takes a token. Those that typing adds inside, where an operand becomes a Long beside another, are
/// counted: the other operand has a token too. So none of its program has more than 257, the last where the whole value
/// becomes a Long for what takes it.
pub fn expressions_are_shallow()
    ensures trees { TreesAreShallow }
    ensures programs { ProgramsAreShallow }
{}

/// Nor do more than 64 Ifs stand within one another, as many as statements may. So it is in the bodies of the parallel
/// loops and searches of its program.
pub fn ifs_nest_little()
    ensures trees { TreesNestLittle }
    ensures programs { ProgramsNestLittle }
{}
