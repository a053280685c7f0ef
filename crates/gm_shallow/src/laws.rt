//! What the passes add to the levels of expressions, as contracts of calls that do nothing.

ghost use Rattle.gm_shallow.specs.Laws.{CuttingAddsFewLevels, DissectingAddsFewLevels, PassesAddFewLevels, PassesNestLittle, PreparedNestsOneMore, TextsStayShallow, TextsStayShallowDissected, TextsStayShallowInPieces};

/// Most passes add no level to the expressions of a program. Compound assignments become operators with their target, and
/// filters in searches get a condition on levels: one level each. All this under limits of at least as many levels as the
/// expressions have that a pass makes anew.
pub fn passes_add_few_levels()
    ensures { PassesAddFewLevels }
{}

/// No expression of the program of an accepted text has more than 512 levels, as many as one in an image may have, once
/// the passes have written it with plain loops, nor once its searches are loops over levels.
pub fn texts_stay_shallow()
    ensures { TextsStayShallow }
{}

/// Nor do the passes that cut loops add a level to the expressions of a program, but for two: where bodies fall into
/// pieces, the mask of a piece gets a level for each If around it, and one for the other side of a condition; and a loop
/// that pulls has both its filters in one.
pub fn cutting_adds_few_levels()
    ensures { CuttingAddsFewLevels }
{}

/// The passes leave no more Ifs within one another in the bodies of parallel loops, but for that of a count, and one where
/// a filter has a reduction.
pub fn passes_nest_little()
    ensures { PassesNestLittle }
{}

/// No expression of the program of an accepted text has more than 512 levels when it is ready to be cut, when its bodies
/// are in pieces, when their inner loops are in slices, nor when besides no loop pulls.
pub fn texts_stay_shallow_in_pieces()
    ensures { TextsStayShallowInPieces }
{}

/// Nor do the passes that prepare a program for pieces, nor that of statements that stand apart, where an expression may
/// have two levels.
pub fn dissecting_adds_few_levels()
    ensures { DissectingAddsFewLevels }
{}

/// A program that is prepared has at most one more If within others in the bodies of its parallel loops, around a node that
/// is read first.
pub fn prepared_programs_nest_one_more()
    ensures { PreparedNestsOneMore }
{}

/// No expression of the program of an accepted text has more than 512 levels when it is prepared, when it is dissected, nor
/// when besides no loop pulls.
pub fn texts_stay_shallow_dissected()
    ensures { TextsStayShallowDissected }
{}
