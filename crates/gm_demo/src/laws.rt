//! Rows of the definitions that were worked by hand, as a contract.

ghost use Rattle.std.specs.Prelude.{◌≡◌, [], ◌∷◌, pos, negsuc};
ghost use Rattle.gm_value.specs.declared.values.Value.TheVariants.{I32};
ghost use Rattle.gm_demo.specs.Draws.{held_after, draw};
ghost use Rattle.gm_demo.specs.Edges.{demo_edge};
ghost use Rattle.gm_demo.specs.Lines.{distances, greatest};

/// What the definitions say of the first draws and edges of two graphs, and of some values. It does nothing when it is
/// called.
pub fn demo_rows_are_worked()
    ensures begins { held_after 3 0 ≡ 3 }
    ensures held_of_one { held_after 1 1 ≡ 7806831264735756412 }
    ensures held_of_three { held_after 3 3 ≡ 13547870596056087544 }
    ensures first_draw { draw 1 0 ≡ 908834774 }
    ensures second_draw { draw 1 1 ≡ 1093944153 }
    ensures fourth_draw { draw 3 3 ≡ 743368138 }
    ensures first_of_one { demo_edge 1 0 ≡ record { origin = 0; target = 0; length = 97 } }
    ensures last_of_one { demo_edge 1 3 ≡ record { origin = 0; target = 0; length = 3 } }
    ensures first_of_three { demo_edge 3 0 ≡ record { origin = 2; target = 1; length = 16 } }
    ensures second_of_three { demo_edge 3 1 ≡ record { origin = 1; target = 0; length = 4 } }
    ensures last_of_three { demo_edge 3 11 ≡ record { origin = 1; target = 2; length = 69 } }
    ensures reached { distances (I32 (pos 4) ∷ (I32 (pos 2147483647) ∷ (I32 (pos 0) ∷ []))) ≡ pos 4 ∷ (pos 0 ∷ []) }
    ensures none_reached { distances (I32 (pos 2147483647) ∷ []) ≡ [] }
    ensures farthest { greatest (pos 4 ∷ (pos 9 ∷ (pos 0 ∷ []))) ≡ pos 9 }
    ensures farthest_below { greatest (negsuc 4 ∷ (negsuc 2 ∷ [])) ≡ negsuc 2 }
    ensures farthest_of_none { greatest [] ≡ pos 0 }
{}
