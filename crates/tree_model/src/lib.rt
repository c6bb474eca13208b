//! The definitions on which trees by names stand, and their laws. Each function does nothing: its contract is the law, and is proved for all values.
#![tactic(auto)]

ghost use Rattle.std.specs.Prelude.{ℕ, ◌+◌, List, [], ◌∷◌, ◌++◌};
ghost use Rattle.vfs_model.specs.Paths.{Path, place};
ghost use Rattle.vfs_model.specs.Stands.{StandsFor};
ghost use Rattle.vfs_model.specs.declared.Case.{Case};
ghost use Rattle.tree_model.specs.Numbers.{Numbers, unnumbered, at_in, raise, IsSorted};

/// No numbers stand for the list of no paths.
pub fn no_numbers_stand_for_no_paths()
    ensures { (case : Case) → StandsFor (at_in case unnumbered) 0 [] }
{}

/// Numbers that stand for a list of invalidated paths stand, after a raise, for the list with the path at its end.
pub fn raised_numbers_stand_for_one_path_more()
    ensures { (case : Case) (node : Numbers) (count : ℕ) (past : List Path) (path : Path) → StandsFor (at_in case node) count past → StandsFor (at_in case (raise case node path (count + 1))) (count + 1) (past ++ place case path ∷ []) }
{}

/// A raise leaves the names at each place in order.
pub fn raises_keep_names_in_order()
    ensures { (case : Case) (node : Numbers) (path : Path) (k : ℕ) → IsSorted case node → IsSorted case (raise case node path k) }
{}
