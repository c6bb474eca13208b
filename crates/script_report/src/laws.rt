//! What holds of each run of lines, as laws of the definitions alone.

ghost use Rattle.std.specs.Prelude.{◌≡◌, ◌+◌, ◌++◌, List, length, ℕ};
ghost use Rattle.std.specs.List.{AllByRecursion as Each};
ghost use Rattle.vfs_model.specs.World.{World, IsWorld};
ghost use Rattle.vfs_model.specs.State.{State};
ghost use Rattle.vfs_model.specs.Sound.{IsSound};
ghost use Rattle.vfs_model.specs.History.{IsLegal, after};
ghost use Rattle.script_text.specs.declared.script.Line.{Line};
ghost use Rattle.vfs_model.specs.History.{Operation};
ghost use Rattle.script_text.specs.declared.script.TextKind.TheVariants.{Replay};
ghost use Rattle.script_text.specs.Grammar.{IsTextOf};
ghost use Rattle.script_report.specs.Openings.{OpeningRun};
ghost use Rattle.script_report.specs.Stages.{Stage, Whole, Follows, chained, stage_after};
ghost use Rattle.script_text.specs.declared.script.Script.{Script};
ghost use Rattle.script_report.specs.Lines.{IsAsking};
ghost use Rattle.script_report.specs.Reports.{IsReplay, IsSoundReplay, IsReportOn, IsOneLine, IsRunnable};
ghost use Rattle.script_report.specs.Runs.{AreMade, AreTrue, AreTold, AreSound, LineRun, AreRuns, BuildsShow, operations_of, texts_of};

/// Over a tree that tells its world, and whose looks do not fail, what is printed for lines is decided
/// by the lines and the state in which they begin, and so is the state after them.
pub fn told_runs_are_one()
    ensures { (s : State) (lines : List Line) (runs : List LineRun) (others : List LineRun)
        → AreRuns s lines runs → AreRuns s lines others
        → AreTold s (operations_of runs) → AreTold s (operations_of others)
        → (texts_of runs ≡ texts_of others) × (after s (operations_of runs) ≡ after s (operations_of others)) }
{}

/// Over such a tree, what is printed for the first of some lines is the front of what is printed for all
/// of them: so what was put of a run that broke off is a front of the whole report.
pub fn first_lines_print_the_front()
    ensures { (s : State) (lines : List Line) (more : List Line) (runs : List LineRun) (others : List LineRun)
        → AreRuns s (lines ++ more) runs → AreRuns s lines others
        → AreTold s (operations_of runs) → AreTold s (operations_of others)
        → (rest : List (List ℕ)) × (texts_of runs ≡ texts_of others ++ rest) }
{}

/// Where what the tree answered is true of the world, the operations of a run are a legal history; and
/// from a sound state each state before one of them is sound, and that after them all.
pub fn true_runs_are_sound()
    ensures legal { (s : State) (lines : List Line) (runs : List LineRun) → Each IsAsking lines
        → AreRuns s lines runs → AreMade s (operations_of runs) → AreTrue s (operations_of runs)
        → IsLegal s (operations_of runs) }
    ensures sound { (s : State) (lines : List Line) (runs : List LineRun) → Each IsAsking lines → IsSound s
        → AreRuns s lines runs → AreMade s (operations_of runs) → AreTrue s (operations_of runs)
        → AreSound s (operations_of runs) }
{}

/// From a sound state all lines have such a run: a settle and a scan end. With the law above, the report
/// on lines is one text.
pub fn told_runs_exist()
    ensures { (s : State) (lines : List Line) → Each IsAsking lines → IsSound s
        → (runs : List LineRun) × AreRuns s lines runs × AreTold s (operations_of runs) }
{}

/// In such a run from a sound state each build shows the fingerprint of its inputs in the world in which
/// it stands, and counts each of them once, where the caller's scan is closed.
pub fn builds_show_the_world()
    ensures { (s : State) (lines : List Line) (runs : List LineRun) → Each IsAsking lines → IsSound s
        → AreRuns s lines runs → AreTold s (operations_of runs) → BuildsShow s lines runs }
{}

/// What follows one stage follows it where another is chained to it; and once the one is whole, the other
/// is due. So the calls of a caller may be told line by line, or of all its lines at once.
pub fn stages_are_chained()
    ensures follows { (caller : ℕ) (stage : Stage) (more : Stage) (h : List Operation) → Follows caller stage h
        → Follows caller (chained stage more) h × (stage_after (chained stage more) h ≡ chained (stage_after stage h) more) }
    ensures whole { (caller : ℕ) (stage : Stage) (more : Stage) (h : List Operation) (text : List ℕ) → Follows caller stage h
        → stage_after stage h ≡ Whole text → stage_after (chained stage more) h ≡ more }
{}

/// A script has one report over a tree that tells its content and whose looks do not fail, where it is
/// one that has a text.
pub fn scripts_have_one_report()
    ensures one { (world : World) (script : Script) (a : List (List ℕ)) (b : List (List ℕ))
        → IsReportOn world script a → IsReportOn world script b → a ≡ b }
    ensures some { (world : World) (script : Script) → IsRunnable script → IsWorld script.settings.case world
        → (texts : List (List ℕ)) × IsReportOn world script texts }
{}

/// A script that has a text may be run: its paths are short, its queue has room for 1 to 65,536 events,
/// and what its lines name may be asked for.
pub fn texts_may_be_run()
    ensures { (text : List ℕ) (script : Script) → IsTextOf Replay text script → IsRunnable script }
{}

/// In a whole run of such a script over a tree that tells its content, and whose looks do not fail, each
/// state is sound, and each build shows the world in which it stands.
pub fn replays_are_sound()
    ensures { (world : World) (script : Script) (openings : List OpeningRun) (runs : List LineRun)
        → IsRunnable script → IsWorld script.settings.case world
        → IsReplay world script openings runs → IsSoundReplay world script openings runs }
{}

/// A report has one line for each opening line and each command line of its script.
pub fn reports_have_a_line_each()
    ensures { (world : World) (script : Script) (texts : List (List ℕ)) → IsReportOn world script texts
        → (length texts ≡ length script.opening + length script.lines) × Each IsOneLine texts }
{}
