//! Rows of the definition of Matrix Market texts that were worked by hand, as a contract.

ghost use Rattle.std.specs.Prelude.{◌≡◌, ◌++◌, [], ◌∷◌, Ok, Err, pos, neg_ℤ, codes, decimal, replicate};
ghost use Rattle.gm_value.specs.declared.values.Value.TheVariants.{I32};
ghost use Rattle.gm_mtx.specs.declared.faults.MtxFault.TheVariants as faults;
ghost use Rattle.gm_mtx.specs.MatrixMarket.{matrix_of};
ghost use Rattle.gm_mtx.specs.FaultLines.{mtx_text};
ghost use Rattle.gm_mtx.specs.Rows.{plain, weighted, twice_weighted, ample, tight, integers, patterns, two, three};

/// What the definition says of some texts. It does nothing when it is called.
pub fn rows_are_worked()
    ensures nothing { matrix_of plain ample [] ≡ Err (faults.BadHeader 1) }
    ensures weights { matrix_of weighted ample (integers (three (codes "% demo") (codes "2 3 2") (two (codes "1 2 4") (codes "2 3 -1"))))
        ≡ Ok (record {
          size = record { rows = 2; columns = 3; entries = 2 };
          entries = record { row = 1; column = 2; values = I32 (pos 4) ∷ [] }
              ∷ record { row = 2; column = 3; values = I32 (neg_ℤ (pos 1)) ∷ [] } ∷ [];
        }) }
    ensures pattern { matrix_of plain ample (patterns (three (codes "2 2 1") [] (codes "2 1")))
        ≡ Ok (record {
          size = record { rows = 2; columns = 2; entries = 1 };
          entries = record { row = 2; column = 1; values = [] } ∷ [];
        }) }
    ensures unread { matrix_of plain ample (integers (two (codes "1 1 1") (codes "1 1 x")))
        ≡ Ok (record {
          size = record { rows = 1; columns = 1; entries = 1 };
          entries = record { row = 1; column = 1; values = [] } ∷ [];
        }) }
    ensures four_fields { matrix_of plain ample (codes "%%MatrixMarket matrix coordinate integer") ≡ Err (faults.BadHeader 1) }
    ensures symmetric { matrix_of plain ample (codes "%%MatrixMarket matrix coordinate integer symmetric") ≡ Err (faults.Unsupported 1) }
    ensures no_size { matrix_of plain ample (integers (codes "% 1 1 1")) ≡ Err (faults.BadLine 3) }
    ensures missing { matrix_of weighted ample (patterns (two (codes "1 1 1") (codes "1 1 7"))) ≡ Err (faults.MissingColumn 3) }
    ensures second_value { matrix_of twice_weighted ample (integers (two (codes "1 1 1") (codes "1 1 7 8"))) ≡ Err (faults.MissingColumn 3) }
    ensures row_zero { matrix_of plain ample (integers (two (codes "1 1 1") (codes "0 1"))) ≡ Err (faults.OutOfRange 3) }
    ensures column_above { matrix_of plain ample (integers (two (codes "2 1 1") (codes "1 2"))) ≡ Err (faults.OutOfRange 3) }
    ensures one_too_many { matrix_of plain ample (integers (three (codes "1 1 1") (codes "1 1") (codes "1 1"))) ≡ Err (faults.CountDiffers 4) }
    ensures one_too_few { matrix_of plain ample (integers (two (codes "1 1 2") (codes "1 1"))) ≡ Err (faults.CountDiffers 4) }
    ensures many_nodes { matrix_of plain tight (integers (codes "1 3 3")) ≡ Err (faults.TooManyNodes 2) }
    ensures many_edges { matrix_of plain tight (integers (codes "2 2 3")) ≡ Err (faults.TooManyEdges 2) }
    ensures too_long { matrix_of plain tight (replicate 61 32) ≡ Err faults.TooLong }
    ensures printed { mtx_text (faults.CountDiffers 12) ≡ codes "graph CountDiffers at line " ++ decimal 12 ++ 10 ∷ [] }
{}
