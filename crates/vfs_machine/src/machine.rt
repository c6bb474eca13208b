//! The machine.

ghost use Rattle.std.specs.Prelude.{◌≡◌, ◌<◌, ◌≤◌, ◌^◌, Some, [], true, false, List, ℕ, IfOk, IfErr, IfSome, IsTrue, OnErr, ◌↔◌, length, is_some, map, option_map};
ghost use Rattle.std.specs.Option.{option_copied};
ghost use Rattle.vfs_model.specs.Paths as paths;
ghost use Rattle.vfs_model.specs.Pending as pending;
ghost use Rattle.vfs_model.specs.Scanning as scanning;
ghost use Rattle.vfs_model.specs.State as state;
ghost use Rattle.vfs_model.specs.History as history;
ghost use Rattle.vfs_model.specs.Sound.{IsSettled, IsSound, AreScanned, fingerprint_of};
ghost use Rattle.vfs_model.specs.World.{World, IsWorld};
ghost use Rattle.vfs_model.specs.Snapshot.{IsTree};
ghost use Rattle.vfs_model.specs.Stands.{Stands, StandsFor, HasSound, KnowsTruth};
ghost use Rattle.vfs_model.specs.Steps.{IsMemoryLast, is_kept};
ghost use Rattle.snapshot_tree.specs.Meaning.{meaning_of, glance_of};
ghost use Rattle.snapshot_hierarchy.specs.Held.{nothing};
ghost use Rattle.world_model.specs.Meaning.{edit_of};
ghost use Rattle.world_model.specs.declared.edit.EditError.TheVariants as edit_error;
ghost use Rattle.vfs_machine.specs.declared.answers.Edited.TheVariants as edited;
ghost use Rattle.vfs_machine.specs.declared.answers.Printed.TheVariants as printed;
ghost use Rattle.vfs_machine.specs.declared.answers.Readed.TheVariants as readed;
ghost use Rattle.scan_walk.specs.Scans.{running_at, AreDigests, IsShapedRunning};
ghost use Rattle.vfs_machine.specs.Deliveries.{Counts};
ghost use Rattle.vfs_machine.specs.Whole.{held_of, opening_parts, told_of};
ghost use Rattle.vfs_machine.specs.Called.{IsCalled};
ghost use Rattle.vfs_machine.specs.Calls.{call_of, reply_of, is_to, HasDigests, HasCount, side_call_of, side_reply_of, is_to_side, HasFewInputs};
ghost use Rattle.vfs_machine.specs.Steps.{edited_reply, fit_reply, delivered_reply, began_reply, readed_reply, answer_reply, printed_reply};
ghost use Rattle.fingerprint_norms.specs.Meaning.{input_of};
ghost use Rattle.vfs_machine.specs.Publish.{IsStaleWhere};

use crate::answers::{Answer, Began, Delivered, Edited, Printed, Readed};
use crate::calls::{Call, Reply, SideCall, SideReply};
use crate::engine::Engine;
use crate::roots::ask_roots;
use case_order::{Case, NoMemory};
use fingerprint_norms::Input;
use merkle_hash::{Bytes, Digest};
use snapshot_hierarchy::Retain;
use snapshot_tree::{Glance, Kind, Snapshot};
use std::alloc::Global;
use std::marker::Model;
use version_hierarchy::Versions;
use vfs_path::Path;
use world_model::{Edit, Fit, Tree};

/// A tree, the events that wait, what is retained with the versions of paths, and sixteen numbered
/// scans, each closed or in progress. It is sound at all times.
///
/// Contracts see these parts as plain data, and say of each call with one record, `IsCalled`: for
/// every state of the model that the machine stands for before it, the machine stands afterwards for
/// the state of the model's step, and the answer is that of the step. Where an answer is `NoMemory`
/// the machine stands for the states that it stood for before, and no answer that needs no memory was
/// due. The record tells too what the tree was asked, which change was added to the log, and what the
/// call leaves as it was. The type keeps that the machine stands for a state in shape, and for a sound
/// one where its tree tells the content.
#[derive(Drop)]
pub struct Machine<T: Tree, R: Retain, V: Versions> {
    engine: Engine<T, R, V>,
}

impl<T: Tree, R: Retain, V: Versions> Model for Machine<T, R, V> {
    ghost use Rattle.vfs_model.specs.Stands.{Parts, HasSound};
    ghost use Rattle.vfs_model.specs.Code.{parts_code};

    ghost Value = { Parts V };

    ghost coded = { parts_code V.code };

    ghost view = { λ m. m.engine };

    ghost invariant = { λ m. HasSound V.version V.count m.engine };
}

/// The word of an edit's paths that they have at most 64 names.
fn ask_lengths(edit: &Edit)
    ensures { history.IsCall (state.CallEdit (edit_of edit.now)) }
{
    match edit {
        Edit::Write(path, _) | Edit::Mkdir(path) | Edit::Remove(path) => {
            let _short = path.len();
        }
        Edit::Move(from, to) => {
            let _short = from.len();
            let _short_too = to.len();
        }
    }
}

impl<T: Tree, R: Retain, V: Versions> Machine<T, R, V> {
    /// The case of the tree and of all that is retained; takes no memory.
    ///
    /// Here the machine gives its word on what it keeps: where the tree tells its content this is a
    /// world under the case, what the machine knows is true of it, but where an event waits or the
    /// mark is set, and each state over a world that the machine stands for is sound. There are
    /// sixteen scans.
    pub fn case(&self) -> Case
        ensures case { result ≡ self.now.case }
        ensures world { (w : World) → self.now.content ≡ Some w → IsWorld self.now.case w }
        ensures sixteen { length self.now.scans ≡ 16 }
        ensures sound { HasSound V.version V.count self.now }
        ensures truth { (w : World) → self.now.content ≡ Some w → KnowsTruth V.version self.now w }
        ensures states { (w : World) → self.now.content ≡ Some w → (s : state.State)
            → Stands V.version V.count self.now s → IsWorld s.case s.world → IsSound s }
    {
        self.engine.case()
    }

    /// Edits the tree; the events of the edit are queued in the same step.
    ///
    /// `Overflow` comes exactly where an event did not fit, `Refused` as the tree refuses, and
    /// `NoMemory`, where the tree tells its content, only where nothing is refused. A tree that is
    /// read only refuses every edit with `ReadOnly`, and no other tree does.
    pub fn edit(&mut self, edit: &Edit) -> Edited
        ensures called { IsCalled V.version V.count self.old self.new
            (state.CallEdit (edit_of edit.now)) (edited_reply result) }
        ensures read_only { T.takes_no_edits ≡ true → result ≡ edited.Refused edit_error.ReadOnly }
        ensures editable { result ≡ edited.Refused edit_error.ReadOnly → T.takes_no_edits ≡ true }
    {
        ask_lengths(edit);
        self.engine.edit(edit)
    }

    /// Queues an event that was told from outside; takes no memory.
    pub fn event(&mut self, path: Path) -> Fit
        ensures { IsCalled V.version V.count self.old self.new (state.CallEvent path) (fit_reply result) }
    {
        let _short = path.len();
        self.engine.event(path)
    }

    /// Events were lost: those that wait go, and the mark is set; takes no memory.
    pub fn lose(&mut self)
        ensures { IsCalled V.version V.count self.old self.new state.CallLose state.Lost }
    {
        self.engine.lose();
    }

    /// Whether no event waits and the mark is clear; takes no memory.
    ///
    /// Where it is so and the tree tells its content, each snapshot that is retained, each known
    /// directory and each kept fingerprint is what a scan of the content gives.
    pub fn settled(&self) -> bool
        ensures settled { (s : state.State) → Stands V.version V.count self.now s → IsTrue result ↔ IsSettled s }
        ensures scanned { IsTrue result → (w : World) → self.now.content ≡ Some w
            → AreScanned self.now.case w self.now.retained self.now.kept }
    {
        // The tree's word that what it tells is a world.
        let _case = self.engine.case();
        self.engine.settled()
    }
}

impl<T: Tree, R: Retain, V: Versions + Drop> Machine<T, R, V> {
    /// Delivers what waits: the mark where it is set, and else the first event.
    ///
    /// `Event` after its path was invalidated, `Cleared` after all was forgotten for the mark;
    /// `Nothing` exactly where the machine is settled. The event or the mark leaves the queue only
    /// with the invalidation.
    pub fn deliver(&mut self) -> Delivered
        requires { V.count self.old.versions < 2 ^ 62 }
        ensures called { IsCalled V.version V.count self.old self.new
            state.CallDeliver (delivered_reply result) }
        ensures counts { Counts result (V.count self.old.versions) (V.count self.new.versions)
            (pending.deliveries_due self.old.pending) (pending.deliveries_due self.new.pending) }
    {
        self.engine.deliver()
    }
}

impl<T: Tree, R: Retain, V: Versions> Machine<T, R, V> {
    /// Begins the scan with the number, 0 to 15, at the path, and answers the path's version, which
    /// is read before the location is.
    ///
    /// `AlreadyOpen` comes exactly where the scan is in progress.
    pub fn begin(&mut self, scan: u64, path: &Path) -> Began
        requires { scan < 16 }
        ensures { IsCalled V.version V.count self.old self.new
            (state.CallBegin scan path.now) (began_reply result) }
    {
        let _short = path.len();
        self.engine.begin(scan, path)
    }

    /// Looks at the next location of the scan with the number, once; a look that wanted memory is no
    /// answer of the tree and is not counted.
    ///
    /// `NoScan` comes exactly where the scan is closed, `Done` exactly where no location is left,
    /// and `Fault` where the look failed, and the tree's count of faults rose in this call; after it
    /// and after `NoMemory` the scan is as before.
    pub fn read(&mut self, scan: u64) -> Readed
        requires { scan < 16 }
        ensures called { IsCalled V.version V.count self.old self.new
            (state.CallRead scan) (readed_reply result) }
        ensures unfailing { T.never_fails ≡ true → result ≡ readed.Fault → ⊥ }
    {
        self.engine.read(scan)
    }

    /// The bytes of the files that the scan with the number has read, in order; None exactly where
    /// it is closed. Takes no memory.
    pub fn contents(&self, scan: u64) -> Option<&[Bytes]>
        requires { scan < 16 }
        ensures bytes { option_copied result
            ≡ option_map (λ r. scanning.contents r.partial) (running_at self.now.scans scan) }
        ensures state { (s : state.State) → Stands V.version V.count self.now s
            → option_copied result ≡ option_map (λ t. scanning.contents t.partial) (state.scan_of s scan) }
        ensures shape { IfSome (running_at self.now.scans scan) (IsShapedRunning self.now.case) }
    {
        self.engine.contents(scan)
    }

    /// Publishes what the scan with the number read, whose contents have these digests, in order.
    ///
    /// The first that holds: `NoScan`; `Unfinished` where locations are left; `Stale` where a path
    /// related to the scan's was invalidated since its begin, with the path's version now, which is
    /// greater than the one that the begin answered; `Covered` where a snapshot is retained strictly
    /// above; `NoMemory`; `Stored`. The snapshot is of what was read, without what was listed and
    /// then seen missing. Every answer but `NoScan`, `Unfinished` and `NoMemory` closes the scan.
    pub fn publish(&mut self, scan: u64, digests: &[Digest]) -> Answer
        requires number { scan < 16 }
        requires digests { AreDigests (running_at self.old.scans scan) digests.now }
        ensures called { IsCalled V.version V.count self.old self.new
            (state.CallPublish scan) (answer_reply result) }
        ensures stale { (s : state.State) (p : paths.Path) (h : List history.Operation) → scan < length s.scans
            → history.AreAnswered (state.after_begin s scan p) h → history.KeepsOpen scan h
            → Stands V.version V.count self.old (history.after (state.after_begin s scan p) h)
            → IsStaleWhere (history.is_invalidated_in s.case p h) (pending.version s.past (paths.place s.case p))
            (pending.version (history.after (state.after_begin s scan p) h).past (paths.place s.case p)) result }
    {
        self.engine.publish(scan, digests)
    }

    /// Closes the scan with the number; false exactly where it was closed. Takes no memory.
    pub fn drop_scan(&mut self, scan: u64) -> bool
        requires { scan < 16 }
        ensures { IsCalled V.version V.count self.old self.new
            (state.CallDrop scan) (state.Dropped result) }
    {
        self.engine.drop_scan(scan)
    }

    /// Whether the scan with the number is in progress; takes no memory.
    pub fn scanning(&self, scan: u64) -> bool
        requires { scan < 16 }
        ensures running { result ≡ is_some (running_at self.now.scans scan) }
        ensures state { (s : state.State) → Stands V.version V.count self.now s
            → result ≡ is_some (state.scan_of s scan) }
    {
        self.engine.scanning(scan)
    }

    /// The kind and the digest of what is retained at the path; takes no memory.
    pub fn find(&self, path: &Path) -> Option<Glance>
        ensures { IsCalled V.version V.count self.now self.now
            (state.CallFind path.now) (state.Found (option_map glance_of result)) }
    {
        self.engine.find(path)
    }

    /// What is retained at the path.
    ///
    /// The names of its directories are in order under the case, and no child is missing. The only
    /// error is want of memory, which comes only where something is retained there.
    pub fn part(&self, path: &Path) -> Result<Option<Snapshot>, NoMemory>
        ensures found { IfOk result (λ part. (a : state.Answers) (s : state.State) → Stands V.version V.count self.now s
            → state.Part (option_map meaning_of part) ≡ (state.step a s (state.CallPart path.now)).reply) }
        ensures tree { IfOk result (λ part. IfSome part (λ s. IsTree self.now.case (meaning_of s))) }
        ensures last { OnErr result ((a : state.Answers)
            → IsMemoryLast V.version V.count self.now (λ s. state.step a s (state.CallPart path.now)) state.NoMemory) }
    {
        self.engine.part(path)
    }

    /// The kind of the location, where it is known; takes no memory.
    pub fn kind(&self, path: &Path) -> Option<Kind>
        ensures { IsCalled V.version V.count self.now self.now
            (state.CallKind path.now) (state.KindIs result) }
    {
        self.engine.kind(path)
    }

    /// The version of the path: the place of the last invalidation that was related to it, counted
    /// from 1, or 0. Takes no memory.
    pub fn version(&self, path: &Path) -> u64
        ensures { IsCalled V.version V.count self.now self.now
            (state.CallVersion path.now) (state.Version result) }
    {
        self.engine.version(path)
    }

    /// The fingerprint of 1 to 64 inputs: that which is kept for this very list, the roots equal in
    /// spelling, and else that of what is retained at their roots, which is kept from now on; where
    /// 64 are kept, the oldest goes.
    ///
    /// A kept fingerprint goes with the delivery of an event that is related to one of its roots,
    /// and all go with the mark. `Unknown(i)` comes exactly where none is kept for the list and the
    /// root of input `i`, counted from 0, is the first that is not retained. `NoMemory` comes only
    /// where none is kept for the list and each root is retained. Where nothing is pending and the
    /// tree tells its content, the fingerprint is that of the content.
    pub fn fingerprint(&mut self, inputs: &[Input]) -> Printed
        requires some { 1 ≤ length inputs.now }
        requires few { length inputs.now ≤ 64 }
        ensures called { IsCalled V.version V.count self.old self.new
            (state.CallFingerprint (map input_of inputs.now)) (printed_reply result) }
        ensures kept { result ≡ printed.NoMemory → (s : state.State) → Stands V.version V.count self.old s
            → is_kept s (map input_of inputs.now) ≡ false }
        ensures world { (w : World) (digest : List ℕ) → self.old.content ≡ Some w
            → self.old.pending.events ≡ [] → self.old.pending.mark ≡ false
            → printed_reply result ≡ state.Is digest
            → digest ≡ fingerprint_of self.old.case w (map input_of inputs.now) }
    {
        // The tree's word that what it tells is a world.
        let _case = self.engine.case();
        ask_roots(inputs);
        self.engine.fingerprint(inputs)
    }
}

impl<T: Tree, R: Retain, V: Versions + Drop> Machine<T, R, V> {
    /// Makes the call, which is its caller's: a call of a scan is made on the scan with this number,
    /// 0 to 15. A publication takes the digests of what the scan read, in order; another call has no
    /// use for them.
    ///
    /// The reply is what the call of that name answers.
    pub fn call(&mut self, scan: u64, call: Call, digests: &[Digest]) -> Reply
        requires number { scan < 16 }
        requires room { HasCount (V.count self.old.versions) call }
        requires digests { HasDigests self.old.scans scan call digests.now }
        ensures called { IsCalled V.version V.count self.old self.new
            (call_of scan call) (reply_of result) }
        ensures kind { is_to call result ≡ true }
    {
        match call {
            Call::Edit(edit) => Reply::Edited(self.edit(&edit)),
            Call::Event(path) => Reply::Fit(self.event(path)),
            Call::Lose => {
                self.lose();
                Reply::Lost
            }
            Call::Deliver => Reply::Delivered(self.deliver()),
            Call::Begin(path) => Reply::Began(self.begin(scan, &path)),
            Call::Read => Reply::Readed(self.read(scan)),
            Call::Publish => Reply::Answer(self.publish(scan, digests)),
        }
    }

    /// Makes the call, which is its caller's: `Abandon` closes the scan with this number, 0 to 15.
    ///
    /// The reply is what the call of that name answers.
    pub fn side_call(&mut self, scan: u64, call: SideCall<'_>) -> SideReply
        requires number { scan < 16 }
        requires inputs { HasFewInputs call }
        ensures called { IsCalled V.version V.count self.old self.new
            (side_call_of scan call.entry) (side_reply_of result) }
        ensures kind { is_to_side call.entry result ≡ true }
    {
        match call {
            SideCall::Find(path) => SideReply::Found(self.find(path)),
            SideCall::Kind(path) => SideReply::Known(self.kind(path)),
            SideCall::Version(path) => SideReply::Version(self.version(path)),
            SideCall::Print(inputs) => SideReply::Printed(self.fingerprint(inputs)),
            SideCall::Abandon => SideReply::Dropped(self.drop_scan(scan)),
        }
    }
}

impl<T: Tree, R: Retain, V: Versions + Drop> Machine<T, R, V> {
    /// A machine over the tree with nothing pending and every scan closed, and a queue for so many
    /// events, 1 to 65,536.
    ///
    /// Nothing is retained or was invalidated yet, and all is under one case. Where memory is
    /// wanting the tree and what is retained are handed back.
    pub fn make(
        alloc: Global,
        tree: T,
        retained: R,
        versions: V,
        queue: u64,
    ) -> Result<Machine<T, R, V>, (T, R, NoMemory)>
        requires some { 1 ≤ queue }
        requires few { queue ≤ 65536 }
        requires tree { (T.told tree).case ≡ (R.held retained).case }
        requires versions { V.case versions ≡ (R.held retained).case }
        requires nothing { (R.held retained).retained ≡ nothing }
        requires none { StandsFor (V.version versions) (V.count versions) [] }
        ensures made { IfOk result (λ m. m ≡ opening_parts (T.told tree) queue (R.held retained) versions) }
        ensures opening { IfOk result (λ m. (w : World) → (T.told tree).content ≡ Some w
            → Stands V.version V.count m (history.opening (T.told tree).case queue w)) }
        ensures tree { IfErr result (λ e. e.0 ≡ tree) }
        ensures retained { IfErr result (λ e. e.1 ≡ retained) }
    {
        // The tree's word that what it tells is a world.
        let _case = tree.case();
        match Engine::make(alloc, tree, retained, versions, queue) {
            Err(refused) => Err(refused),
            Ok(engine) => Ok(Machine { engine }),
        }
    }

    /// The machine's tree, and what is retained.
    pub fn into_parts(self) -> (T, R)
        ensures tree { T.told result.0 ≡ told_of self }
        ensures retained { R.held result.1 ≡ held_of self }
    {
        let Machine { engine } = self;
        engine.into_parts()
    }
}

impl<T: Tree, R: Retain + Drop, V: Versions + Drop> Machine<T, R, V> {
    /// The machine's tree.
    pub fn into_tree(self) -> T
        ensures { T.told result ≡ told_of self }
    {
        let (tree, _retained) = self.into_parts();
        tree
    }
}
