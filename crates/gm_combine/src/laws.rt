//! Totals that were worked out by hand, as a contract.

ghost use Rattle.std.specs.Prelude.{◌≡◌, pos, Some, None, [], ◌∷◌, map};
ghost use Rattle.gm_value.specs.declared.reductions.Reduce.TheVariants.{Sum, Min};
ghost use Rattle.gm_machine.specs.Machine.{inbox};
ghost use Rattle.gm_machine.specs.Combining.{carried, of_kind, exact_of};
ghost use Rattle.gm_combine.specs.Folds.{placed};
ghost use Rattle.gm_combine.specs.Totals.{all_at};
ghost use Rattle.gm_combine.specs.WorkedTotals.{worked_messages};

/// What the definitions say of the totals of some messages to node 1. It does nothing when it is called.
pub fn totals_are_worked()
    ensures sum { exact_of Sum (map carried (of_kind 0 (inbox worked_messages 1))) ≡ Some (pos 17) }
    ensures none { exact_of Sum (map carried (of_kind 0 (inbox worked_messages 0))) ≡ None }
    ensures another_kind { exact_of Sum (map carried (of_kind 1 (inbox worked_messages 1))) ≡ None }
    ensures added { all_at Sum 1 (placed (1 ∷ 1 ∷ 1 ∷ []) (pos 5 ∷ pos 5 ∷ pos 7 ∷ [])) None ≡ Some (pos 17) }
    ensures least { all_at Min 1 (placed (1 ∷ 0 ∷ 1 ∷ []) (pos 5 ∷ pos 2 ∷ pos 7 ∷ [])) (Some (pos 6)) ≡ Some (pos 5) }
{}
