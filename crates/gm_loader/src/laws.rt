//! Rows of the definition of graph texts that were worked by hand, as a contract.

ghost use Rattle.std.specs.Prelude.{◌≡◌, ◌++◌, [], ◌∷◌, Ok, Err, pos, neg_ℤ, codes, replicate};
ghost use Rattle.gm_value.specs.declared.values.Value.TheVariants.{I32};
ghost use Rattle.gm_loader.specs.declared.faults.GraphFault.TheVariants as faults;
ghost use Rattle.gm_loader.specs.Lines.{NodeLine, EdgeLine, Skipped};
ghost use Rattle.gm_loader.specs.GraphText.{lines_of};
ghost use Rattle.gm_loader.specs.Rows.{plain, weighted, valued, ample, tight, two, three};

/// What the definition says of some texts. It does nothing when it is called.
pub fn rows_are_worked()
    ensures nothing { lines_of plain ample [] ≡ Ok [] }
    ensures edge { lines_of weighted ample (codes "0 1 -4 x") ≡ Ok (EdgeLine 0 1 (I32 (neg_ℤ (pos 4)) ∷ []) ∷ []) }
    ensures snap { lines_of plain ample (two (codes "# Nodes" ++ 13 ∷ []) (codes "30" ++ 9 ∷ codes "1412" ++ 13 ∷ 10 ∷ []))
        ≡ Ok (Skipped ∷ EdgeLine 30 1412 [] ∷ []) }
    ensures node { lines_of valued ample (two (codes "v 3 4") (codes "5 3"))
        ≡ Ok (NodeLine 3 (I32 (pos 4) ∷ []) ∷ EdgeLine 5 3 [] ∷ []) }
    ensures bad_line { lines_of weighted ample (codes "0 x 1") ≡ Err (faults.BadLine 1) }
    ensures missing { lines_of weighted ample (codes "0 1") ≡ Err (faults.MissingColumn 1) }
    ensures out_of_range { lines_of weighted ample (codes "0 1 3000000000") ≡ Err (faults.OutOfRange 1) }
    ensures node_twice { lines_of plain ample (two (codes "v 4") (codes "v 4")) ≡ Err (faults.NodeTwice 2) }
    ensures many_nodes { lines_of plain tight (two (codes "0 1") (codes "1 2")) ≡ Err (faults.TooManyNodes 2) }
    ensures many_edges { lines_of plain tight (three (codes "0 1") (codes "1 0") (codes "0 0"))
        ≡ Err (faults.TooManyEdges 3) }
    ensures too_long { lines_of plain tight (replicate 21 32) ≡ Err faults.TooLong }
{}
