//! The laws of the definitions of a file memory. Each function does nothing: its contract is the law, and is proved for all values.
//!
//! The definitions and words are those of `vfs_model`; docs/MODEL.md tells them in plain words.
#![tactic(auto)]

ghost use Rattle.std.specs.Prelude.{[], ◌∷◌, ◌≡◌, ◌≢◌, ◌≤◌, None, ◌++◌, ◌<◌, ◌↔◌, ℕ, List, Some, true, false, length, drop, is_some};
ghost use Rattle.std.specs.List.{list_any, AllByRecursion as Each};
ghost use Rattle.std.specs.declared.cmp.Ordering.TheVariants.{Less};
ghost use Rattle.vfs_model.specs.declared.Kind.TheVariants.{Dir as DirKind};
ghost use Rattle.vfs_model.specs.Paths.{Name, Path, place, is_at_or_above, is_related};
ghost use Rattle.vfs_model.specs.World.{World, IsWorld, at, AreShort, IsDir, status_of, IsSameBelow};
ghost use Rattle.vfs_model.specs.Edit.{Edit, Move, refusal, apply, events, is_told};
ghost use Rattle.vfs_model.specs.Snapshot.{Snapshot, Children, names_of, Missing, IsTree, sub};
ghost use Rattle.vfs_model.specs.Scan.{Agrees, scan};
ghost use Rattle.vfs_model.specs.Pending.{version};
ghost use Rattle.vfs_model.specs.Retained.{Pair, Retained, kind_of, part_of, all_pairs_left, after_store, is_covered, AreInLine, IsInShape, after_invalidation};
ghost use Rattle.vfs_model.specs.Scanning.{Scan, is_overtaken, Unread, Look, PartialSnapshot, IsFront, look, count_left, next_left, after_look, partial_of_look, contents, walk_of, after_looks, walk_after, first_walk, looks_of, first_of, locations_left, decided_status, partial_at, decided_status_by, IsPartialTree, Reading, readings, path_order};
ghost use Rattle.vfs_model.specs.Fingerprint.{AreDigests, digest_bytes, lines, Input, Seen, Relative, fingerprint};
ghost use Rattle.vfs_model.specs.State.{State, Call, CallBegin, CallPublish, CallFingerprint, Answers, Reply, Version, Stale, Is, AreDue, answers, step, after_begin, scan_of};
ghost use Rattle.vfs_model.specs.History.{own_partial, after_operation, IsAnswered, AreAnswered, IsLegalOperation, opening, empty_world, IsOpening, changes, after_changes, Operation, after, IsCall, IsLegal, KeepsOpen, is_stale, is_invalidated_in, is_scan_overtaken};
ghost use Rattle.vfs_model.specs.Sound.{AreShapedAnswers, IsShaped, IsInLimits, HasShortPaths, IsTrue, IsSound, IsSettled, IsScanned, AreScanned, fingerprint_of};
ghost use Rattle.vfs_model.specs.Stands.{StandsFor, RunningScan, Parts, IsScanOf, Stands, HasSound, has_grown, KnowsTruth};
ghost use Rattle.vfs_model.specs.Steps.{IsStepOf};

use vfs_model::Case;

// ---- worlds and edits

/// An edit changes what is at a place only where one of its events is at or above the place.
pub fn edits_are_told()
    ensures { (case : Case) (world : World) (edit : Edit) (x : Path) → is_told case (events edit) x ≡ false → at case (apply case world edit) x ≡ at case world x }
{}

/// An edit that is not refused, and whose paths have at most 64 names, leaves a world.
pub fn edits_leave_a_world()
    ensures { (case : Case) (world : World) (edit : Edit) → refusal case world edit ≡ None → Each (λ (p : Path). length p ≤ 64) (events edit) → IsWorld case world → IsWorld case (apply case world edit) }
{}

/// Two lists of entries that are one world give the same looks and the same refusals; and after an edit that is not refused they are one world again, where both are worlds.
pub fn one_world_answers_the_same()
    ensures look { (case : Case) (v w : World) (x : Path) → IsSameBelow case v [] w [] → look case v x ≡ look case w x }
    ensures refusal { (case : Case) (v w : World) (edit : Edit) → IsSameBelow case v [] w [] → refusal case v edit ≡ refusal case w edit }
    ensures edit { (case : Case) (v w : World) (edit : Edit) → IsWorld case v → IsWorld case w → refusal case v edit ≡ None → IsSameBelow case v [] w [] → IsSameBelow case (apply case v edit) [] (apply case w edit) [] }
{}

// ---- snapshots

/// A tree that agrees with the world at each place at or below its own is the scan of its place, where no path of the world has more than 64 names.
pub fn agreeing_is_scanned()
    ensures { (case : Case) (world : World) (p : Path) (s : Snapshot) → AreShort world → IsTree case s → ((x : Path) → Agrees case world p s x) → s ≡ scan case world p }
{}

// ---- what is retained

/// After an invalidation nothing is found at a place related to the path, where the snapshots are trees; and what is found was found before, where the pairs are in line too.
pub fn invalidation_leaves_the_rest()
    ensures related { (case : Case) (e : Path) (pairs : List Pair) (x : Path) (f : Snapshot) → Each (λ (r : Pair). IsTree case r.snapshot) pairs → part_of case (all_pairs_left case e pairs) x ≡ Some f → is_related e x ≡ false }
    ensures before { (case : Case) (e : Path) (pairs : List Pair) (x : Path) (f : Snapshot) → Each (λ (r : Pair). IsTree case r.snapshot) pairs → AreInLine pairs → part_of case (all_pairs_left case e pairs) x ≡ Some f → part_of case pairs x ≡ Some f }
{}

/// What is found at a place that is not related to the path, and is not missing, is found there after the invalidation of the path.
pub fn invalidation_keeps_the_rest()
    ensures { (case : Case) (e : Path) (pairs : List Pair) (x : Path) (f : Snapshot) → is_related e x ≡ false → f ≢ Missing → part_of case pairs x ≡ Some f → part_of case (all_pairs_left case e pairs) x ≡ Some f }
{}

/// Where no pair stands strictly above, a store is found at and below its place; and elsewhere what was found before is found, whether or not a pair stands above.
pub fn store_is_found()
    ensures below { (case : Case) (p : Path) (s : Snapshot) (retained : Retained) (x : Path) → is_covered retained.pairs p ≡ false → is_at_or_above p x ≡ true → part_of case (after_store p s retained).pairs x ≡ Some (sub case s (drop (length p) x)) }
    ensures elsewhere { (case : Case) (p : Path) (s : Snapshot) (retained : Retained) (x : Path) → is_at_or_above p x ≡ false → part_of case (after_store p s retained).pairs x ≡ part_of case retained.pairs x }
{}

/// What is retained stays retained through a store, and after a store its own place is retained, whether or not a pair stands above.
pub fn stores_keep_what_is_retained()
    ensures keeps { (case : Case) (p : Path) (s : Snapshot) (retained : Retained) (x : Path) → is_some (part_of case retained.pairs x) ≡ true → is_some (part_of case (after_store p s retained).pairs x) ≡ true }
    ensures stores { (case : Case) (p : Path) (s : Snapshot) (retained : Retained) → is_some (part_of case (after_store p s retained).pairs p) ≡ true }
{}

/// Where no pair stands strictly above a snapshot that is not missing, each place strictly above it is known to be a directory after its store; and what is known to be one strictly above a path is known to be one after the invalidation of the path, where the snapshots are trees.
pub fn directories_above_are_known()
    ensures stored { (case : Case) (d : Path) (n : Name) (r : Path) (s : Snapshot) (retained : Retained) → is_covered retained.pairs (d ++ n ∷ r) ≡ false → s ≢ Missing → kind_of case (after_store (d ++ n ∷ r) s retained) d ≡ Some DirKind }
    ensures invalidated { (case : Case) (d : Path) (n : Name) (r : Path) (retained : Retained) → Each (λ (q : Pair). IsTree case q.snapshot) retained.pairs → kind_of case retained d ≡ Some DirKind → kind_of case (after_invalidation case (d ++ n ∷ r) retained) d ≡ Some DirKind }
{}

/// An invalidation keeps the lists of what is retained in shape, and so does the store of a tree.
pub fn lists_stay_in_shape()
    ensures invalidated { (case : Case) (e : Path) (retained : Retained) → IsInShape case retained → IsInShape case (after_invalidation case e retained) }
    ensures stored { (case : Case) (p : Path) (s : Snapshot) (retained : Retained) → IsTree case s → IsInShape case retained → IsInShape case (after_store p s retained) }
{}

// ---- scans in progress

/// What a scan has read and has left tells the same in two forms, a partial snapshot and two lists: look for look they go together, and the looks of the one list make the partial snapshot; both decide the same of each place, where the partial snapshot is in shape; and the first location left, and how many there are, are those of the other list.
pub fn two_lists_say_the_same()
    ensures lists { (looks : List Look) → walk_of (after_looks Unread looks) ≡ walk_after first_walk looks }
    ensures partial { (looks : List Look) → after_looks Unread (looks_of (walk_after first_walk looks).read) ≡ after_looks Unread looks }
    ensures decided { (case : Case) (s : PartialSnapshot) (x : Path) → IsPartialTree case s → decided_status (partial_at case s x) ≡ decided_status_by case (readings s) [] x }
    ensures next { (s : PartialSnapshot) → next_left s ≡ first_of (locations_left s) }
    ensures left { (s : PartialSnapshot) → count_left s ≡ length (locations_left s) }
{}

/// The location that a scan reads next comes, in the order of paths, after every location that it has read: so it reads none twice. This holds where the partial snapshot is in shape, and nothing behind the first location left is read.
pub fn scans_read_forward()
    ensures { (case : Case) (s : PartialSnapshot) (y : Path) → IsPartialTree case s → IsFront s → next_left s ≡ Some y → Each (λ (r : Reading). path_order case r.names y ≡ Less) (readings s) }
{}

/// A read of the first location left adds the bytes that it saw to the contents, and leaves nothing read behind the next, where nothing was.
pub fn reads_add_their_bytes()
    ensures { (l : Look) (s : PartialSnapshot) (y : Path) → IsFront s → next_left s ≡ Some y → (contents (after_look l s) ≡ contents s ++ contents (partial_of_look l)) × IsFront (after_look l s) }
{}

/// After a begin and an answered history that keeps the scan open, whatever the tree answered in it, the scan is in progress with the path of its begin, and what it has read is a function of its own operations in the history.
pub fn scans_are_their_own_entries()
    ensures { (s : State) (c : ℕ) (p : Path) (h : List Operation) → c < length s.scans → AreAnswered (after_begin s c p) h → KeepsOpen c h → (t : Scan) × (scan_of (after (after_begin s c p) h) c ≡ Some t) × (t.path ≡ p) × (t.partial ≡ own_partial c h Unread) }
{}

// ---- staleness

/// After a begin and an answered history that keeps the scan open, whatever the tree answered in it, the scan is overtaken exactly where a reply in the history says that a place related to its path was invalidated; and a version is greater than it was exactly where a related place was invalidated since.
pub fn overtaken_is_told()
    ensures replies { (s : State) (c : ℕ) (p : Path) (h : List Operation) → c < length s.scans → AreAnswered (after_begin s c p) h → KeepsOpen c h → is_scan_overtaken (after (after_begin s c p) h) (scan_of (after (after_begin s c p) h) c) ≡ is_invalidated_in s.case p h }
    ensures versions { (past since : List Path) (x : Path) → (version past x < version (past ++ since) x) ↔ (list_any (λ e. is_related e x) since ≡ true) }
{}

/// After a begin and an answered history that keeps the scan open, whatever the tree answered in it, a publish with nothing left is stale exactly where a reply in the history says that a place related to its path was invalidated.
pub fn stale_is_told()
    ensures { (a : Answers) (s : State) (c : ℕ) (p : Path) (h : List Operation) (t : Scan) → c < length s.scans → AreAnswered (after_begin s c p) h → KeepsOpen c h → scan_of (after (after_begin s c p) h) c ≡ Some t → next_left t.partial ≡ None → is_stale (step a (after (after_begin s c p) h) (CallPublish c)).reply ≡ is_invalidated_in s.case p h }
{}

/// A begin of a closed scan answers the version of its path; and after it and an answered history that keeps the scan open, whatever the tree answered in it, the number of a stale publish is the version of the path at that time, and greater than the one that the begin answered.
pub fn stale_numbers_have_grown()
    ensures begin { (a : Answers) (s : State) (c : ℕ) (p : Path) → scan_of s c ≡ None → step a s (CallBegin c p) ≡ record { reply = Version (version s.past (place s.case p)); state = after_begin s c p } }
    ensures number { (a : Answers) (s : State) (c : ℕ) (p : Path) (h : List Operation) (n : ℕ) → c < length s.scans → AreAnswered (after_begin s c p) h → KeepsOpen c h → (step a (after (after_begin s c p) h) (CallPublish c)).reply ≡ Stale n → n ≡ version (after (after_begin s c p) h).past (place s.case p) }
    ensures grown { (a : Answers) (s : State) (c : ℕ) (p : Path) (h : List Operation) (n : ℕ) → c < length s.scans → AreAnswered (after_begin s c p) h → KeepsOpen c h → (step a (after (after_begin s c p) h) (CallPublish c)).reply ≡ Stale n → version s.past (place s.case p) < n }
{}

// ---- fingerprints

/// Where two directories list the same names, and the digests of their children have 16 bytes, the same bytes to hash have the same kinds and digests of the children.
pub fn digests_tell_the_children()
    ensures { (cs ds : Children) → names_of cs ≡ names_of ds → AreDigests cs → AreDigests ds → digest_bytes cs ≡ digest_bytes ds → lines cs ≡ lines ds }
{}

/// Two worlds that are the same at and below the roots of the inputs have the same fingerprint of them.
pub fn prints_follow_the_roots()
    ensures { (case : Case) (v w : World) (inputs : List Input) → Each (λ (i : Input). IsSameBelow case v (place case i.root) w (place case i.root)) inputs → fingerprint_of case v inputs ≡ fingerprint_of case w inputs }
{}

/// The relative fingerprint of a directory is the same after a move of the directory that is not refused.
pub fn relative_prints_outlive_a_move()
    ensures { (case : Case) (world : World) (p q : Path) → refusal case world (Move p q) ≡ None → IsWorld case world → status_of (at case world (place case p)) ≡ IsDir → fingerprint_of case (apply case world (Move p q)) (record { root = q; sensitivity = Relative } ∷ []) ≡ fingerprint_of case world (record { root = p; sensitivity = Relative } ∷ []) }
{}

/// An input whose root lies at or below the root of the input before it adds nothing to the fingerprint.
pub fn covered_roots_add_nothing()
    ensures { (case : Case) (a b : Seen) → is_at_or_above (place case a.input.root) (place case b.input.root) ≡ true → fingerprint case (a ∷ b ∷ []) ≡ fingerprint case (a ∷ []) }
{}

/// Where the root of each input is retained, a call for their fingerprint is answered with a digest. And where nothing waits and all that is known is true, a digest that is answered is the fingerprint of the inputs in the world, whether it was kept or is new.
pub fn settled_fingerprints_are_of_the_world()
    ensures known { (a : Answers) (s : State) (inputs : List Input) → Each (λ (i : Input). is_some (part_of s.case s.retained.pairs (place s.case i.root)) ≡ true) inputs → (d : List ℕ) × ((step a s (CallFingerprint inputs)).reply ≡ Is d) }
    ensures world { (a : Answers) (s : State) (inputs : List Input) (d : List ℕ) → IsSettled s → IsTrue s → (step a s (CallFingerprint inputs)).reply ≡ Is d → d ≡ fingerprint_of s.case s.world inputs }
{}

// ---- steps and histories

/// Each step of a call that may be made keeps a state within its limits, whatever the tree answers; and it brings in no path of more than 64 names, where what the tree answers is in shape.
pub fn steps_keep_limits()
    ensures numbers { (a : Answers) (s : State) (call : Call) → IsCall call → IsInLimits s → IsInLimits (step a s call).state }
    ensures paths { (a : Answers) (s : State) (call : Call) → IsCall call → AreShapedAnswers s call a → HasShortPaths s → HasShortPaths (step a s call).state }
{}

/// Each step of a call that may be made keeps a state sound, where what the tree answers is true of the world; and so does each legal history.
pub fn steps_keep_sound()
    ensures step { (a : Answers) (s : State) (call : Call) → IsCall call → AreDue s call a → IsSound s → IsSound (step a s call).state }
    ensures history { (s : State) (h : List Operation) → IsLegal s h → IsSound s → IsSound (after s h) }
{}

/// Each step of a call that may be made keeps a state in shape, where what the tree answers is in shape, whether or not it tells its content; and a sound state is in shape.
pub fn steps_keep_shape()
    ensures step { (a : Answers) (s : State) (call : Call) → IsCall call → AreShapedAnswers s call a → IsShaped s → IsShaped (step a s call).state }
    ensures sound { (s : State) → IsSound s → IsShaped s }
{}

/// The answers of a tree that tells its world are true of the world; and answers that are true of a world are in shape, where the call is one that may be made.
pub fn told_answers_are_due()
    ensures due { (s : State) (call : Call) → AreDue s call (answers s call) }
    ensures shape { (s : State) (call : Call) (a : Answers) → IsCall call → IsWorld s.case s.world → AreDue s call a → AreShapedAnswers s call a }
{}

/// The tree that has only its root is a world; an opening state is sound; and the opening over a world, with a capacity of 1 to 65,536, is an opening state.
pub fn openings_are_openings()
    ensures empty { (case : Case) → IsWorld case empty_world }
    ensures sound { (s : State) → IsOpening s → IsSound s }
    ensures opening { (case : Case) (capacity : ℕ) (world : World) → 1 ≤ capacity → capacity ≤ 65536 → IsWorld case world → IsOpening (opening case capacity world) }
{}

/// The state after a history with one operation more is that after the operation; an answered history with an operation more that is answered is answered; and so it is with what is legal. Each legal history is answered.
pub fn histories_grow()
    ensures after { (s : State) (h : List Operation) (o : Operation) → after s (h ++ o ∷ []) ≡ after_operation (after s h) o }
    ensures answered { (s : State) (h : List Operation) (o : Operation) → AreAnswered s h → IsAnswered (after s h) o → AreAnswered s (h ++ o ∷ []) }
    ensures legal { (s : State) (h : List Operation) (o : Operation) → IsLegal s h → IsLegalOperation (after s h) o → IsLegal s (h ++ o ∷ []) }
    ensures weaker { (s : State) (h : List Operation) → IsLegal s h → AreAnswered s h }
{}

/// What is retained after an answered history, whatever the tree answered in it, is what the changes of the history make of what was retained before it.
pub fn changes_tell_what_is_retained()
    ensures { (s : State) (h : List Operation) → AreAnswered s h → (after s h).retained ≡ after_changes s.case (changes s h) s.retained }
{}

/// Where nothing waits and all that is known is true, all that is known is what a scan of the world gives; and so it is after every legal history from an opening state after which nothing waits.
pub fn settled_is_scanned()
    ensures state { (s : State) → IsSettled s → IsTrue s → IsScanned s }
    ensures history { (s : State) (h : List Operation) → IsOpening s → IsLegal s h → IsSettled (after s h) → IsScanned (after s h) }
{}

// ---- machines

/// A scan is overtaken exactly where the version of its path has grown since its begin; and a machine that stands for a state knows the truth exactly where the state does.
pub fn machines_know_what_states_know<V>()
    ensures overtaken { (case : Case) (at : Path → ℕ) (count : ℕ) (past : List Path) (r : RunningScan) (s : Scan) → StandsFor at count past → IsScanOf case past r s → is_overtaken case past s ≡ has_grown at case r }
    ensures machine { (at : V → Path → ℕ) (count : V → ℕ) (m : Parts V) (s : State) → Stands at count m s → IsTrue s → KnowsTruth at m s.world }
    ensures state { (at : V → Path → ℕ) (count : V → ℕ) (m : Parts V) (s : State) → Stands at count m s → KnowsTruth at m s.world → IsTrue s }
{}

/// Each step of a call that may be made keeps a machine sound, where what its tree answers is in shape and, as long as the tree tells its content, true of that; and whether it tells it stays.
pub fn machines_stay_sound<V>()
    ensures { (at : V → Path → ℕ) (count : V → ℕ) (old new : Parts V) (a : Answers) (call : Call) (r : Reply) → IsCall call → is_some new.content ≡ is_some old.content → ((s : State) → Stands at count old s → AreShapedAnswers s call a) → ((w : World) → old.content ≡ Some w → (s : State) → Stands at count old s → AreDue s call a) → IsStepOf at count old new a call r → HasSound at count old → HasSound at count new }
{}

/// What a sound machine knows is true of the content that its tree tells; and so each state that it stands for, whose world is one, is sound.
pub fn sound_machines_know_the_truth<V>()
    ensures truth { (at : V → Path → ℕ) (count : V → ℕ) (m : Parts V) (w : World) → m.content ≡ Some w → IsWorld m.case w → HasSound at count m → KnowsTruth at m w }
    ensures states { (at : V → Path → ℕ) (count : V → ℕ) (m : Parts V) (w : World) (s : State) → m.content ≡ Some w → Stands at count m s → IsWorld s.case s.world → HasSound at count m → IsSound s }
{}

/// Where nothing waits, all that a sound machine knows is what a scan of the content gives that its tree tells.
pub fn settled_machines_are_scanned<V>()
    ensures { (at : V → Path → ℕ) (count : V → ℕ) (m : Parts V) (w : World) → m.content ≡ Some w → IsWorld m.case w → m.pending.events ≡ [] → m.pending.mark ≡ false → HasSound at count m → AreScanned m.case w m.retained m.kept }
{}
