//! Rows of the definitions that were worked by hand, as contracts.

ghost use Rattle.std.specs.Prelude.{◌≡◌, [], ◌∷◌, codes, map};
ghost use Rattle.std.specs.Str.{IsAscii};
ghost use Rattle.gm_value.specs.declared.values.VType.TheVariants.{I32, Flag, Node};
ghost use Rattle.gm_graph.specs.declared.builds.Walks.TheVariants.{Outward, BothWays};
ghost use Rattle.gm_ast.specs.declared.tree.Declaration.{Declaration};
ghost use Rattle.gm_ast.specs.declared.tree.Direction.TheVariants.{Out, In};
ghost use Rattle.gm_ast.specs.declared.tree.Domain.TheVariants.{InNbrs, UpNbrs, DownNbrs};
ghost use Rattle.gm_source_runs.specs.Programs.{input_of, inputs_of, property_outputs, scalar_outputs, shape_of};
ghost use Rattle.gm_source_runs.specs.Walks.{walks_of};
ghost use Rattle.gm_source_runs.specs.Rows.{count_over, degree, returning, small};

/// What the definitions say of a small program. It does nothing when it is called.
pub fn rows_are_worked()
    ensures shape { shape_of (small 5 2) ≡ record { nodes = I32 ∷ []; edges = Flag ∷ []; walks = Outward } }
    ensures in_degrees { walks_of (returning (degree In)) ≡ BothWays }
    ensures out_degrees { walks_of (returning (degree Out)) ≡ Outward }
    ensures in_neighbours { walks_of (returning (count_over InNbrs)) ≡ BothWays }
    ensures one_level_up { walks_of (returning (count_over UpNbrs)) ≡ BothWays }
    ensures one_level_down { walks_of (returning (count_over DownNbrs)) ≡ Outward }
    ensures inputs { map (λ i. i.vtype) (inputs_of (small 5 2)) ≡ I32 ∷ Node ∷ [] }
    ensures names { (d : Declaration) → IsAscii d.name → (input_of d).name ≡ d.name }
    ensures scalars { scalar_outputs (small 5 2) ≡ codes "s" ∷ [] }
    ensures properties { property_outputs (small 5 2) ≡ codes "q" ∷ [] }
    ensures few { property_outputs (small 2 2) ≡ codes "p" ∷ [] }
    ensures many { scalar_outputs (small 6 9) ≡ codes "s" ∷ [] }
    ensures no_outputs { property_outputs (small 9 9) ≡ [] }
{}
