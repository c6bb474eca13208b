//! The engine: the parts of a machine, each of whose calls is the model's step.

ghost use Rattle.std.specs.Prelude.{◌≡◌, ◌<◌, ◌≤◌, ◌^◌, ◌+◌, Some, None, [], true, false, IfOk, IfErr, IfSome, IsTrue, OnErr, ◌↔◌, length, is_some, map, option_map, replicate};
ghost use Rattle.std.specs.Option.{option_copied};
ghost use Rattle.vfs_model.specs.Paths as paths;
ghost use Rattle.vfs_model.specs.Pending as pending;
ghost use Rattle.vfs_model.specs.Scanning as scanning;
ghost use Rattle.vfs_model.specs.State as state;
ghost use Rattle.vfs_model.specs.Steps.{IsStepOf, IsToldStepOf, IsLogged, IsMemoryLast, is_kept};
ghost use Rattle.world_model.specs.Front.{IsFirst};
ghost use Rattle.vfs_model.specs.World.{World, IsWorld};
ghost use Rattle.vfs_model.specs.Faults.{Rose};
ghost use Rattle.vfs_model.specs.Snapshot.{IsTree};
ghost use Rattle.vfs_model.specs.Stands.{Stands};
ghost use Rattle.snapshot_tree.specs.Meaning.{meaning_of, glance_of};
ghost use Rattle.world_model.specs.Meaning.{edit_of, events_of, look_seen};
ghost use Rattle.world_model.specs.Told.{with_answers};
ghost use Rattle.world_model.specs.declared.edit.EditError.TheVariants as edit_error;
ghost use Rattle.vfs_machine.specs.declared.answers.Edited.TheVariants as edited;
ghost use Rattle.vfs_machine.specs.declared.answers.Printed.TheVariants as printed;
ghost use Rattle.vfs_machine.specs.declared.answers.Readed.TheVariants as readed;
ghost use Rattle.scan_walk.specs.Cased.{IsUnder, cased_at, running_of};
ghost use Rattle.scan_walk.specs.Scans.{running_at, AreDigests, AreContentsOf, IsDone, IsShapedRunning};
ghost use Rattle.vfs_machine.specs.Deliveries.{Counts, IsDue, IsWaiting};
ghost use Rattle.vfs_machine.specs.Whole.{held_of, opening_parts, told_of};
ghost use Rattle.vfs_machine.specs.Steps.{IsRead, edit_answers, edit_asked, edited_reply, fit_reply, delivered_reply, began_reply, readed_reply, answer_reply, printed_reply};
ghost use Rattle.fingerprint_norms.specs.Meaning.{input_of};
ghost use Rattle.vfs_machine.specs.Publish.{IsPublished, published_reply, scans_after};

use crate::answers::{Answer, Began, Delivered, Edited, Printed, Readed};
use crate::finished::FinishedScan;
use crate::roots::{first_unknown, seen_roots};
use case_order::{Case, NoMemory, Share};
use fingerprint_norms::Input;
use kept_fingerprints::KeptFingerprints;
use merkle_hash::{Bytes, Digest};
use publish_core::{Published, Vfs};
use scan_walk::{Next, Scan, contents_of, is_open, left_of, next_of, see_in, set_scan};
use snapshot_hierarchy::Retain;
use snapshot_tree::{Glance, Kind, Snapshot};
use std::alloc::Global;
use std::marker::Model;
use version_hierarchy::Versions;
use vfs_path::Path;
use world_model::{ApplyError, Edit, Entry, Events, Fit, Front, Intake, LookError, Tree};

/// A tree, the events that wait, what is retained with the versions of paths, and sixteen numbered
/// scans, each closed or in progress.
///
/// Contracts see these parts as plain data, and say of each call: for every state of the model that
/// the engine stands for before it, the engine stands afterwards for the state of the model's step,
/// and the answer is that of the step. Where an answer is `NoMemory` the engine stands for the
/// states that it stood for before.
#[derive(Drop)]
pub(crate) struct Engine<T: Tree, R: Retain, V: Versions> {
    tree: T,
    intake: Intake,
    vfs: Vfs<R, V>,
    scans: Vec<Option<Scan>>,
    kept: KeptFingerprints,
}

impl<T: Tree, R: Retain, V: Versions> Model for Engine<T, R, V> {
    ghost use Rattle.vfs_model.specs.Stands.{Parts};
    ghost use Rattle.vfs_model.specs.Code.{parts_code};
    ghost use Rattle.scan_walk.specs.Cased.{scans_in};
    ghost use Rattle.vfs_machine.specs.Whole.{parts_of, IsWhole};

    ghost Value = { Parts V };

    ghost coded = { parts_code V.code };

    ghost view = { λ m. parts_of (T.told m.tree) m.intake m.vfs (scans_in m.scans.items) m.kept };

    ghost invariant = { λ m. IsWhole (T.told m.tree).case m.vfs.case m.scans.items };
}

/// Queues an event; false where it did not fit.
fn put(intake: &mut Intake, path: Path) -> bool
    ensures fit { result ≡ pending.has_room intake.old }
    ensures queue { intake.new ≡ pending.put path intake.old }
{
    intake.put(path) == Fit::Fits
}

/// Queues the events of an edit, in order; false where one did not fit.
fn put_all(intake: &mut Intake, events: Events) -> bool
    ensures fit { result ≡ state.all_fit (events_of events) intake.old }
    ensures queue { intake.new ≡ pending.put_all (events_of events) intake.old }
    ensures waiting { pending.deliveries_due intake.new ≤ pending.deliveries_due intake.old + 2 }
{
    match events {
        Events::One(path) => put(intake, path),
        Events::Two(from, to) => {
            let first = put(intake, from);
            let second = put(intake, to);
            first && second
        }
    }
}

impl<T: Tree, R: Retain, V: Versions> Engine<T, R, V> {
    /// The case of the tree and of all that is retained; takes no memory.
    ///
    /// Where the tree tells its content this is a world under the case, and there are sixteen scans.
    pub(crate) fn case(&self) -> Case
        ensures case { result ≡ self.now.case }
        ensures world { (w : World) → self.now.content ≡ Some w → IsWorld self.now.case w }
        ensures sixteen { length self.now.scans ≡ 16 }
    {
        self.tree.case()
    }

    /// Edits the tree; the events of the edit are queued in the same step.
    ///
    /// `Overflow` comes exactly where an event did not fit, `Refused` as the tree refuses: a tree that
    /// is read only refuses every edit with `ReadOnly`, and no other tree does.
    pub(crate) fn edit(&mut self, edit: &Edit) -> Edited
        ensures step { IsStepOf V.version V.count self.old self.new
            (edit_answers (edit_of edit.now) result) (state.CallEdit (edit_of edit.now)) (edited_reply result) }
        ensures due { (w : World) → self.old.content ≡ Some w → (s : state.State) → Stands V.version V.count self.old s
            → state.AreDue s (state.CallEdit (edit_of edit.now)) (edit_answers (edit_of edit.now) result) }
        ensures read_only { T.takes_no_edits ≡ true → result ≡ edited.Refused edit_error.ReadOnly }
        ensures editable { result ≡ edited.Refused edit_error.ReadOnly → T.takes_no_edits ≡ true }
        ensures tells { is_some self.new.content ≡ is_some self.old.content }
        ensures faults { self.old.faults ≤ self.new.faults }
        ensures answered { self.new.answers
            ≡ option_map (with_answers (edit_asked (edit_of edit.now) result)) self.old.answers }
        ensures log { self.new.log ≡ self.old.log }
        ensures versions { self.new.versions ≡ self.old.versions }
        ensures waiting { pending.deliveries_due self.new.pending ≤ pending.deliveries_due self.old.pending + 2 }
    {
        // The tree's word that what it tells is a world.
        let _case = self.tree.case();
        match self.tree.apply(edit) {
            Ok(events) => {
                if put_all(&mut self.intake, events) {
                    Edited::Done
                } else {
                    Edited::Overflow
                }
            }
            Err(ApplyError::Refused(e)) => Edited::Refused(e),
            Err(ApplyError::NoMemory) => Edited::NoMemory,
        }
    }

    /// Queues an event that was told from outside; takes no memory.
    pub(crate) fn event(&mut self, path: Path) -> Fit
        ensures step { (a : state.Answers)
            → IsStepOf V.version V.count self.old self.new a (state.CallEvent path) (fit_reply result) }
        ensures content { told_of self.new ≡ told_of self.old }
        ensures log { self.new.log ≡ self.old.log }
        ensures versions { self.new.versions ≡ self.old.versions }
        ensures waiting { pending.deliveries_due self.new.pending ≤ pending.deliveries_due self.old.pending + 1 }
    {
        self.intake.put(path)
    }

    /// Events were lost: those that wait go, and the mark is set; takes no memory.
    pub(crate) fn lose(&mut self)
        ensures step { (a : state.Answers)
            → IsStepOf V.version V.count self.old self.new a state.CallLose state.Lost }
        ensures content { told_of self.new ≡ told_of self.old }
        ensures log { self.new.log ≡ self.old.log }
        ensures versions { self.new.versions ≡ self.old.versions }
    {
        self.intake.lose();
    }

    /// Whether no event waits and the mark is clear; takes no memory.
    pub(crate) fn settled(&self) -> bool
        ensures { IsTrue result ↔ ((self.now.pending.events ≡ []) × (self.now.pending.mark ≡ false)) }
    {
        self.intake.settled()
    }
}

/// What is to be delivered next.
enum Due {
    /// The mark of lost events.
    Mark,
    /// The first event.
    Event(Path),
    /// Nothing is pending.
    Nothing,
}

/// What is to be delivered next.
///
/// The only error is want of memory, which comes only where an event is.
fn next_due(intake: &Intake) -> Result<Due, NoMemory>
    ensures due { IfOk result (IsDue intake.now) }
    ensures waiting { OnErr result (IsWaiting intake.now) }
{
    match intake.front() {
        Front::Mark => Ok(Due::Mark),
        Front::Event(path) => Ok(Due::Event(path.share()?)),
        Front::Empty => Ok(Due::Nothing),
    }
}

impl<T: Tree, R: Retain, V: Versions + Drop> Engine<T, R, V> {
    /// Delivers what waits: the mark where it is set, and else the first event.
    ///
    /// `Event` after its path was invalidated, `Cleared` after all was forgotten for the mark;
    /// `Nothing` exactly where the machine is settled. The event or the mark leaves the queue only
    /// with the invalidation.
    pub(crate) fn deliver(&mut self) -> Delivered
        requires { V.count self.old.versions < 2 ^ 62 }
        ensures step { (a : state.Answers)
            → IsStepOf V.version V.count self.old self.new a state.CallDeliver (delivered_reply result) }
        ensures last { (a : state.Answers)
            → IsMemoryLast V.version V.count self.old (λ s. state.step a s state.CallDeliver) (delivered_reply result) }
        ensures log { IsLogged V.version V.count self.old self.new state.CallDeliver (delivered_reply result) }
        ensures counts { Counts result (V.count self.old.versions) (V.count self.new.versions)
            (pending.deliveries_due self.old.pending) (pending.deliveries_due self.new.pending) }
        ensures content { told_of self.new ≡ told_of self.old }
    {
        match next_due(&self.intake) {
            Err(NoMemory) => Delivered::NoMemory,
            Ok(Due::Nothing) => Delivered::Nothing,
            Ok(Due::Mark) => self.deliver_mark(),
            Ok(Due::Event(path)) => self.deliver_event(path),
        }
    }

    fn deliver_mark(&mut self) -> Delivered
        requires count { V.count self.old.versions < 2 ^ 62 }
        requires mark { self.old.pending.mark ≡ true }
        ensures step { (a : state.Answers)
            → IsStepOf V.version V.count self.old self.new a state.CallDeliver (delivered_reply result) }
        ensures last { (a : state.Answers)
            → IsMemoryLast V.version V.count self.old (λ s. state.step a s state.CallDeliver) (delivered_reply result) }
        ensures log { IsLogged V.version V.count self.old self.new state.CallDeliver (delivered_reply result) }
        ensures counts { Counts result (V.count self.old.versions) (V.count self.new.versions)
            (pending.deliveries_due self.old.pending) (pending.deliveries_due self.new.pending) }
        ensures content { told_of self.new ≡ told_of self.old }
    {
        match self.vfs.drop_all() {
            Err(NoMemory) => Delivered::NoMemory,
            Ok(()) => {
                self.kept.clear();
                self.intake.drop_front();
                Delivered::Cleared
            }
        }
    }

    fn deliver_event(&mut self, path: Path) -> Delivered
        requires count { V.count self.old.versions < 2 ^ 62 }
        requires mark { self.old.pending.mark ≡ false }
        requires first { IsFirst self.old.pending.events path }
        ensures step { (a : state.Answers)
            → IsStepOf V.version V.count self.old self.new a state.CallDeliver (delivered_reply result) }
        ensures last { (a : state.Answers)
            → IsMemoryLast V.version V.count self.old (λ s. state.step a s state.CallDeliver) (delivered_reply result) }
        ensures log { IsLogged V.version V.count self.old self.new state.CallDeliver (delivered_reply result) }
        ensures counts { Counts result (V.count self.old.versions) (V.count self.new.versions)
            (pending.deliveries_due self.old.pending) (pending.deliveries_due self.new.pending) }
        ensures content { told_of self.new ≡ told_of self.old }
    {
        match self.vfs.invalidate(&path) {
            Err(NoMemory) => Delivered::NoMemory,
            Ok(()) => {
                self.kept.drop_related(self.vfs.case(), &path);
                self.intake.drop_front();
                Delivered::Event(path)
            }
        }
    }
}

fn kind_of(entry: &Entry) -> Kind
    ensures { result ≡ state.kind_of_look (look_seen entry.now) }
{
    match entry {
        Entry::Missing => Kind::Missing,
        Entry::File(_) => Kind::File,
        Entry::Dir(_) => Kind::Dir,
    }
}

/// A scan of the path that begins now.
///
/// The only error is want of memory.
fn begun<R: Retain, V: Versions>(
    alloc: Global,
    vfs: &Vfs<R, V>,
    path: &Path,
) -> Result<Scan, NoMemory>
    ensures { IfOk result (λ s. s ≡ record { case = vfs.now.case; scan = record { path = path.now; seen = V.version vfs.now.versions (paths.place vfs.now.case path.now); partial = scanning.Unread } }) }
{
    let ticket = vfs.begin(path.share()?);
    Scan::begin(alloc, vfs.case(), ticket)
}

impl<T: Tree, R: Retain, V: Versions> Engine<T, R, V> {
    /// Begins the scan with the number, 0 to 15, at the path, and answers the path's version, which
    /// is read before the location is.
    ///
    /// `AlreadyOpen` comes exactly where the scan is in progress.
    pub(crate) fn begin(&mut self, scan: u64, path: &Path) -> Began
        requires { scan < 16 }
        ensures step { (a : state.Answers)
            → IsStepOf V.version V.count self.old self.new a (state.CallBegin scan path.now) (began_reply result) }
        ensures last { (a : state.Answers)
            → IsMemoryLast V.version V.count self.old (λ s. state.step a s (state.CallBegin scan path.now)) (began_reply result) }
        ensures content { told_of self.new ≡ told_of self.old }
        ensures log { self.new.log ≡ self.old.log }
        ensures versions { self.new.versions ≡ self.old.versions }
        ensures pending { self.new.pending ≡ self.old.pending }
    {
        if is_open(&self.scans, scan as usize) {
            return Began::AlreadyOpen;
        }
        match begun(*self.scans.allocator(), &self.vfs, path) {
            Err(NoMemory) => Began::NoMemory,
            Ok(begun) => {
                let version = begun.ticket().seen;
                set_scan(&mut self.scans, scan as usize, Some(begun));
                Began::Version(version)
            }
        }
    }

    /// Looks at the next location of the scan with the number.
    ///
    /// `NoScan` comes exactly where the scan is closed, `Done` exactly where no location is left,
    /// and `Fault` where the look failed, and the tree's count of faults rose in this call; after it
    /// and after `NoMemory` the scan is as before.
    pub(crate) fn read(&mut self, scan: u64) -> Readed
        requires { scan < 16 }
        ensures read { IsRead V.version V.count self.old self.new scan result }
        ensures told { (result ≡ readed.Fault → ⊥)
            → IsToldStepOf V.version V.count self.old self.new (state.CallRead scan) (readed_reply result) }
        ensures last { (a : state.Answers)
            → IsMemoryLast V.version V.count self.old (λ s. state.step a s (state.CallRead scan)) (readed_reply result) }
        ensures fault { result ≡ readed.Fault → Rose self.old.faults self.new.faults }
        ensures unfailing { T.never_fails ≡ true → result ≡ readed.Fault → ⊥ }
        ensures faults { self.old.faults ≤ self.new.faults }
        ensures content { self.new.content ≡ self.old.content }
        ensures log { self.new.log ≡ self.old.log }
        ensures versions { self.new.versions ≡ self.old.versions }
        ensures pending { self.new.pending ≡ self.old.pending }
    {
        let path = match next_of(&self.scans, scan as usize) {
            Err(NoMemory) => return Readed::NoMemory,
            Ok(Next::Closed) => return Readed::NoScan,
            Ok(Next::Done) => return Readed::Done,
            Ok(Next::Location(path)) => path,
        };
        let entry = match self.tree.look(&path) {
            Err(LookError::Failed) => return Readed::Fault,
            Err(LookError::NoMemory) => return Readed::NoMemory,
            Ok(entry) => entry,
        };
        let kind = kind_of(&entry);
        let left = match see_in(&mut self.scans, scan as usize, entry) {
            Err(NoMemory) => return Readed::NoMemory,
            Ok(left) => left,
        };
        Readed::Saw(path, kind, left)
    }

    /// The bytes of the files that the scan with the number has read, in order; None exactly where
    /// it is closed. Takes no memory.
    pub(crate) fn contents(&self, scan: u64) -> Option<&[Bytes]>
        requires { scan < 16 }
        ensures bytes { option_copied result ≡ option_map (λ r. scanning.contents r.partial) (running_at self.now.scans scan) }
        ensures state { (s : state.State) → Stands V.version V.count self.now s → option_copied result ≡ option_map (λ t. scanning.contents t.partial) (state.scan_of s scan) }
        ensures shape { IfSome (running_at self.now.scans scan) (IsShapedRunning self.now.case) }
    {
        contents_of(&self.scans, scan as usize)
    }
}

/// Publishes the scan with the number, which is in progress with nothing left.
fn publish_scan<R: Retain, V: Versions>(
    vfs: &mut Vfs<R, V>,
    scans: &[Option<Scan>],
    scan: usize,
    digests: &[Digest],
) -> Published
    requires number { scan < length scans.now }
    requires open { is_some (cased_at scans.now scan) ≡ true }
    requires case { IsUnder vfs.old.case (cased_at scans.now scan) }
    requires done { IsDone (running_of (cased_at scans.now scan)) }
    requires digests { AreContentsOf (running_of (cased_at scans.now scan)) digests.now }
    ensures case { vfs.new.case ≡ vfs.old.case }
    ensures versions { vfs.new.versions ≡ vfs.old.versions }
    ensures published { IsPublished (V.version vfs.old.versions) vfs.old.held vfs.new.held
        (running_of (cased_at scans.now scan)) result }
{
    match &scans[scan] {
        None => unreachable!(),
        Some(scan) => vfs.publish_made(scan.ticket(), FinishedScan::new(scan, digests)),
    }
}

/// Every answer but want of memory closes the scan.
fn close_after(scans: &mut Vec<Option<Scan>>, scan: usize, published: Published) -> Answer
    requires { scan < length scans.old.items }
    ensures reply { answer_reply result ≡ published_reply published }
    ensures scans { scans.new.items ≡ scans_after scans.old.items scan published }
    ensures sixteen { length scans.new.items ≡ length scans.old.items }
{
    let answer = match published {
        Published::NoMemory => return Answer::NoMemory,
        Published::Stale(version) => Answer::Stale(version),
        Published::Covered => Answer::Covered,
        Published::Stored => Answer::Stored,
    };
    set_scan(scans, scan, None);
    answer
}

impl<T: Tree, R: Retain, V: Versions> Engine<T, R, V> {
    /// Publishes what the scan with the number read, whose contents have these digests, in order.
    ///
    /// The first that holds: `NoScan`, `Unfinished` where locations are left, `Stale` where a
    /// related path was invalidated since the begin, `Covered`, `NoMemory`, `Stored`. Every answer but
    /// NoScan, Unfinished and NoMemory closes the scan.
    pub(crate) fn publish(&mut self, scan: u64, digests: &[Digest]) -> Answer
        requires number { scan < 16 }
        requires digests { AreDigests (running_at self.old.scans scan) digests.now }
        ensures step { (a : state.Answers)
            → IsStepOf V.version V.count self.old self.new a (state.CallPublish scan) (answer_reply result) }
        ensures last { (a : state.Answers)
            → IsMemoryLast V.version V.count self.old (λ s. state.step a s (state.CallPublish scan)) (answer_reply result) }
        ensures log { IsLogged V.version V.count self.old self.new (state.CallPublish scan) (answer_reply result) }
        ensures content { told_of self.new ≡ told_of self.old }
        ensures versions { self.new.versions ≡ self.old.versions }
        ensures pending { self.new.pending ≡ self.old.pending }
    {
        match left_of(&self.scans, scan as usize) {
            None => return Answer::NoScan,
            Some(left) => {
                if left > 0 {
                    return Answer::Unfinished(left);
                }
            }
        }
        let published = publish_scan(&mut self.vfs, &self.scans, scan as usize, digests);
        close_after(&mut self.scans, scan as usize, published)
    }

    /// Closes the scan with the number; false exactly where it was closed. Takes no memory.
    pub(crate) fn drop_scan(&mut self, scan: u64) -> bool
        requires { scan < 16 }
        ensures step { (a : state.Answers)
            → IsStepOf V.version V.count self.old self.new a (state.CallDrop scan) (state.Dropped result) }
        ensures content { told_of self.new ≡ told_of self.old }
        ensures log { self.new.log ≡ self.old.log }
        ensures versions { self.new.versions ≡ self.old.versions }
        ensures pending { self.new.pending ≡ self.old.pending }
    {
        if !is_open(&self.scans, scan as usize) {
            return false;
        }
        set_scan(&mut self.scans, scan as usize, None);
        true
    }

    /// Whether the scan with the number is in progress; takes no memory.
    pub(crate) fn scanning(&self, scan: u64) -> bool
        requires { scan < 16 }
        ensures { result ≡ is_some (running_at self.now.scans scan) }
    {
        is_open(&self.scans, scan as usize)
    }

    /// The kind and the digest of what is retained at the path; takes no memory.
    pub(crate) fn find(&self, path: &Path) -> Option<Glance>
        ensures { (a : state.Answers) (s : state.State) → Stands V.version V.count self.now s → state.Found (option_map glance_of result) ≡ (state.step a s (state.CallFind path.now)).reply }
    {
        self.vfs.find(path)
    }

    /// What is retained at the path.
    ///
    /// The names of its directories are in order under the case, and no child is missing. The only
    /// error is want of memory, which comes only where something is retained there.
    pub(crate) fn part(&self, path: &Path) -> Result<Option<Snapshot>, NoMemory>
        ensures found { IfOk result (λ part. (a : state.Answers) (s : state.State) → Stands V.version V.count self.now s → state.Part (option_map meaning_of part) ≡ (state.step a s (state.CallPart path.now)).reply) }
        ensures tree { IfOk result (λ part. IfSome part (λ s. IsTree self.now.case (meaning_of s))) }
        ensures last { OnErr result ((a : state.Answers)
            → IsMemoryLast V.version V.count self.now (λ s. state.step a s (state.CallPart path.now)) state.NoMemory) }
    {
        self.vfs.part(path)
    }

    /// The kind of the location, where it is known; takes no memory.
    pub(crate) fn kind(&self, path: &Path) -> Option<Kind>
        ensures { (a : state.Answers) (s : state.State) → Stands V.version V.count self.now s → state.KindIs result ≡ (state.step a s (state.CallKind path.now)).reply }
    {
        self.vfs.kind(path)
    }

    /// The version of the path: the place of the last invalidation that was related to it, counted
    /// from 1, or 0. Takes no memory.
    pub(crate) fn version(&self, path: &Path) -> u64
        ensures { (a : state.Answers) (s : state.State) → Stands V.version V.count self.now s → state.Version result ≡ (state.step a s (state.CallVersion path.now)).reply }
    {
        self.vfs.version(path)
    }
}

impl<T: Tree, R: Retain, V: Versions> Engine<T, R, V> {
    /// The fingerprint of the inputs: that which is kept for this very list, and else that of what
    /// is retained at their roots, which is kept from now on; where 64 are kept, the oldest goes.
    ///
    /// `Unknown` comes exactly where none is kept for the list and a root is not retained, and
    /// `NoMemory` only where none is kept for it and each root is retained.
    pub(crate) fn fingerprint(&mut self, inputs: &[Input]) -> Printed
        ensures step { (a : state.Answers)
            → IsStepOf V.version V.count self.old self.new a (state.CallFingerprint (map input_of inputs.now)) (printed_reply result) }
        ensures last { (a : state.Answers)
            → IsMemoryLast V.version V.count self.old (λ s. state.step a s (state.CallFingerprint (map input_of inputs.now))) (printed_reply result) }
        ensures kept { result ≡ printed.NoMemory → (s : state.State) → Stands V.version V.count self.old s
            → is_kept s (map input_of inputs.now) ≡ false }
        ensures content { told_of self.new ≡ told_of self.old }
        ensures log { self.new.log ≡ self.old.log }
        ensures versions { self.new.versions ≡ self.old.versions }
        ensures pending { self.new.pending ≡ self.old.pending }
    {
        if let Some(digest) = self.kept.find(inputs) {
            return Printed::Is(digest);
        }
        if let Some(unknown) = first_unknown(&self.vfs, inputs) {
            return Printed::Unknown(unknown);
        }
        let alloc = *self.scans.allocator();
        let Ok(seen) = seen_roots(alloc, &self.vfs, inputs) else {
            return Printed::NoMemory;
        };
        match self.kept.keep(self.vfs.case(), seen) {
            Err(NoMemory) => Printed::NoMemory,
            Ok(digest) => Printed::Is(digest),
        }
    }
}

/// Sixteen closed scans.
fn closed_scans(alloc: Global) -> Result<Vec<Option<Scan>>, NoMemory>
    ensures { IfOk result (λ scans. scans.items ≡ replicate 16 None) }
{
    let mut scans = Vec::new(alloc);
    for i in 0..16usize {
        scans.push(None)?;
    }
    Ok(scans)
}

/// An empty queue, and sixteen closed scans.
fn rooms(alloc: Global, queue: u64) -> Result<(Intake, Vec<Option<Scan>>), NoMemory>
    requires some { 1 ≤ queue }
    requires few { queue ≤ 65536 }
    ensures intake { IfOk result (λ made. made.0 ≡ record { events = []; capacity = queue; mark = false }) }
    ensures scans { IfOk result (λ made. made.1.items ≡ replicate 16 None) }
{
    let intake = Intake::make(alloc, queue)?;
    let scans = closed_scans(alloc)?;
    Ok((intake, scans))
}

impl<T: Tree, R: Retain, V: Versions + Drop> Engine<T, R, V> {
    /// An engine over the tree with nothing pending and every scan closed, and a queue for so many
    /// events, 1 to 65,536.
    ///
    /// Where memory is wanting the tree and what is retained are handed back.
    pub(crate) fn make(
        alloc: Global,
        tree: T,
        retained: R,
        versions: V,
        queue: u64,
    ) -> Result<Engine<T, R, V>, (T, R, NoMemory)>
        requires some { 1 ≤ queue }
        requires few { queue ≤ 65536 }
        requires tree { (T.told tree).case ≡ (R.held retained).case }
        requires versions { V.case versions ≡ (R.held retained).case }
        ensures made { IfOk result (λ m. m ≡ opening_parts (T.told tree) queue (R.held retained) versions) }
        ensures tree { IfErr result (λ e. e.0 ≡ tree) }
        ensures retained { IfErr result (λ e. e.1 ≡ retained) }
    {
        match rooms(alloc, queue) {
            Err(e) => Err((tree, retained, e)),
            Ok((intake, scans)) => Ok(Engine {
                tree,
                intake,
                vfs: Vfs::make(retained, versions),
                scans,
                kept: KeptFingerprints::new(alloc),
            }),
        }
    }

    /// The engine's tree, and what is retained.
    pub(crate) fn into_parts(self) -> (T, R)
        ensures tree { T.told result.0 ≡ told_of self }
        ensures retained { R.held result.1 ≡ held_of self }
    {
        let Engine {
            tree,
            intake: _,
            vfs,
            scans: _,
            kept: _,
        } = self;
        (tree, vfs.into_retained())
    }
}
