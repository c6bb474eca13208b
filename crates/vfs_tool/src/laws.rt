//! What the line of `gen N` tells, and what a run over a tree that tells its content puts, as laws of
//! the definitions alone.

ghost use Rattle.std.specs.Prelude.{◌≡◌, ◌+◌, ◌*◌, ◌++◌, ℕ, Bool, true, List, Some, length};
ghost use Rattle.std.specs.List.{concat};
ghost use Rattle.vfs_model.specs.World.{World};
ghost use Rattle.world_model.specs.Told.{TreeTold};
ghost use Rattle.vfs_io.specs.Told.{SinkTold};
ghost use Rattle.script_text.specs.declared.script.Script.{Script};
ghost use Rattle.script_report.specs.Openings.{OpeningRun, opening_texts};
ghost use Rattle.script_report.specs.Runs.{LineRun, texts_of};
ghost use Rattle.script_report.specs.Reports.{IsReport, IsReplay};
ghost use Rattle.script_runs.specs.Output.{PutsEach};
ghost use Rattle.script_summary.specs.Generated.{generated};
ghost use Rattle.script_summary.specs.Summary.{count_lines};
ghost use Rattle.vfs_tool.specs.Folder.{PutsOver};
ghost use Rattle.vfs_tool.specs.Gen.{IsSummary};

/// The report on the script of n directories has 9 n + 4 lines: the number that the line of `gen N`
/// tells first.
pub fn generated_reports_have_nine_lines_each()
    ensures { (n : ℕ) (texts : List (List ℕ)) → IsReport (generated n) texts
        → (length texts ≡ 9 * n + 4) × (count_lines (concat texts) ≡ 9 * n + 4) }
{}

/// The line of `gen N` is a function of N.
pub fn summaries_are_one()
    ensures { (n : ℕ) (a : List ℕ) (b : List ℕ) → IsSummary n a → IsSummary n b → a ≡ b }
{}

/// What is put over a tree that told its content, took the script's case and had no more looks that
/// failed than before is the report on that content, and so a function of it and the script.
pub fn told_trees_have_their_content_reported()
    ensures { (takes_no_edits : Bool) (old new : TreeTold) (script : Script)
        (world : World) (before after : SinkTold)
        → old.content ≡ Some world → new.faults ≡ old.faults
        → (over : PutsOver takes_no_edits old new script before after) → over.took ≡ true
        → (openings : List OpeningRun) × (runs : List LineRun) × IsReplay world script openings runs
        × PutsEach before after (opening_texts openings ++ texts_of runs) }
{}
