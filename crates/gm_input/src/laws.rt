//! Laws of the definitions, and rows of them that were worked by hand, as contracts.

ghost use Rattle.std.specs.Prelude.{◌≡◌, ℕ, List, [], ◌∷◌, ◌++◌, codes, decimal};
ghost use Rattle.gm_loader.specs.declared.faults.GraphFault.TheVariants as faults;
ghost use Rattle.gm_words.specs.declared.arguments.ArgFault.TheVariants as words;
ghost use Rattle.gm_input.specs.Texts.{absent_text, argument_text, graph_text, read_fault_text};
ghost use Rattle.gm_input.specs.Parts.{IsParted, graph_part, program_part};

/// What the definition of the two texts in one input says of every text, and of some. It does nothing when it is
/// called.
pub fn texts_are_parted()
    // A text is its program, the line `%%` and its graph, or its program alone; the program has no line `%%`.
    ensures together { (text : List ℕ) → IsParted text (program_part text) (graph_part text) }
    ensures first { (text : List ℕ) → program_part (program_part text) ≡ program_part text }

    ensures program { program_part (codes "a" ++ 10 ∷ codes "%%" ++ 10 ∷ codes "0 1") ≡ codes "a" ++ 10 ∷ [] }
    ensures graph { graph_part (codes "a" ++ 10 ∷ codes "%%" ++ 10 ∷ codes "0 1") ≡ codes "0 1" }
    ensures no_program { program_part (codes "%%" ++ 13 ∷ 10 ∷ codes "%%" ++ 10 ∷ []) ≡ [] }
    ensures graph_of_marks { graph_part (codes "%%" ++ 13 ∷ 10 ∷ codes "%%" ++ 10 ∷ []) ≡ codes "%%" ++ 10 ∷ [] }
    ensures last_line { program_part (codes "a" ++ 10 ∷ codes "%%" ++ 13 ∷ []) ≡ codes "a" ++ 10 ∷ [] }
    ensures no_mark { program_part (codes "a%%" ++ 10 ∷ codes "%%b" ++ 10 ∷ codes " %%") ≡ codes "a%%" ++ 10 ∷ codes "%%b" ++ 10 ∷ codes " %%" }
    ensures no_graph { graph_part (codes "a%%" ++ 10 ∷ codes "%%b" ++ 10 ∷ codes " %%") ≡ [] }
{}

/// What the definitions say of some names and faults. It does nothing when it is called.
pub fn lines_are_worked()
    ensures absent { absent_text (codes "a") ≡ codes "absent a" ++ 10 ∷ [] }
    ensures unread { read_fault_text (codes "-") ≡ codes "read fault -" ++ 10 ∷ [] }
    ensures bad_line { graph_text (faults.BadLine 12) ≡ codes "graph BadLine at line " ++ decimal 12 ++ 10 ∷ [] }
    ensures too_long { graph_text faults.TooLong ≡ codes "graph TooLong" ++ 10 ∷ [] }
    ensures missing { argument_text (words.Missing (codes "root")) ≡ codes "argument Missing root" ++ 10 ∷ [] }
    ensures no_such_node { argument_text (words.NoSuchNode (codes "root")) ≡ codes "argument NoSuchNode root" ++ 10 ∷ [] }
{}
