//! A disk in memory.
ghost use Rattle.std.specs.Prelude.{◌≡◌, ◌+◌, ◌≤◌, length, IfOk, OnOk, OnErr, is_err, not};
ghost use Rattle.std.specs.Option.{option_map};
ghost use Rattle.sz_spec.specs.Cause.{HasCause};
ghost use Rattle.sz_disk.specs.Image.{patched};
ghost use Rattle.sz_disk.specs.Between.{PoweredUp};
ghost use Rattle.sz_disk.specs.Disk.{ReadsPart, IsQuiet, IsSynced, IsStill, StaysUnsynced, WroteIn};
ghost use Rattle.sz_disk.specs.Event.{Leaves};
ghost use Rattle.sz_disk.specs.Laws.{lawful_after};
ghost use Rattle.sz_disk.specs.Plan.{with_failing, NamesCut};
ghost use Rattle.sz_disk.specs.Memory.{view, seen_of, blank, IsPickedOf, powered_up, with_plan, counted_faults, IsCounted, Reads, Writes, Syncs, IsKept, IsMarked, IsUntouched};

use crate::disk::Disk;
use crate::medium::Medium;
use crate::plan::{Cut, Fate, Plan};
use std::alloc::Global;
use sz_base::{Calls, Failed, OutOfMemory};

/// A disk in memory that keeps the disk rule, and whose calls fail where they are told to.
#[derive(Drop)]
pub struct MemoryDisk {
    alloc: Global,
    medium: Medium,
    plan: Plan,
    faults: u64,
    short: bool,
}

impl MemoryDisk {
    /// A disk of `size` zeros, with nothing unsynced.
    pub fn create(alloc: Global, size: u64) -> Result<Self, OutOfMemory>
        ensures { IfOk result (λ disk. view disk ≡ blank size) }
    {
        Ok(MemoryDisk {
            alloc,
            medium: Medium::create(alloc, size as usize)?,
            plan: Plan::create(alloc),
            faults: 0,
            short: false,
        })
    }

    /// Names the calls that fail, by their numbers, in the place of those that were named before.
    pub fn fail_at(&mut self, calls: Calls)
        ensures { view self.new ≡ with_plan (view self.old) (with_failing (view self.old).plan calls) }
    {
        self.plan.failing = calls;
    }

    /// Stops the disk at a call: that call and all later ones fail. `choice` picks what is left of it when it
    /// is powered up. A cut that was reached stays.
    pub fn cut_at(&mut self, call: u64, choice: u64)
        ensures named { NamesCut (record { call = call; choice = choice })
            (view self.old).plan (view self.new).plan }
        ensures kept { view self.new ≡ with_plan (view self.old) (view self.new).plan }
    {
        self.plan.cut_at(Cut { call, choice });
    }

    /// The number of its calls but `size` since it was made or powered up. It stays at the greatest u64.
    pub fn calls(&self) -> u64
        ensures { result ≡ (view self.now).plan.calls }
    {
        self.plan.calls
    }

    /// The record of a call found no memory.
    pub fn short(&self) -> bool
        ensures { result ≡ (view self.now).short }
    {
        self.short
    }

    /// The disk with the image that the cut's choice picks, or choice 0 where no cut is named. Everything is
    /// synced, the record is empty, and no call is counted or named.
    pub fn power_up(self) -> Self
        ensures picked { IsPickedOf (view self) (view result).bytes }
        ensures left { Leaves (view self).bytes (view self).events (view result).bytes }
        ensures fresh { view result ≡ powered_up (view self) (view result).bytes }
        ensures powered { PoweredUp (seen_of (view self)) (seen_of (view self)) (seen_of (view result)) }
    {
        let mut disk = self;
        let choice = disk.plan.choice();
        disk.medium.settle(disk.alloc, choice);
        disk.plan = Plan::create(disk.alloc);
        disk
    }

    // Writes and records it, and says whether the record found memory.
    fn put(&mut self, at: usize, bytes: &[u8]) -> bool
        requires { at + length bytes.now ≤ length (view self.old).bytes }
        ensures kept { IsKept at bytes.now (view self.old) (view self.new) result }
        ensures plan { (view self.new).plan ≡ (view self.old).plan }
        ensures faults { (view self.new).faults ≡ (view self.old).faults }
    {
        let kept = self.medium.put(self.alloc, at, bytes).is_ok();
        if !kept {
            self.short = true;
        }
        kept
    }

    // Records a sync, and says whether the record found memory.
    fn mark(&mut self) -> bool
        ensures kept { IsMarked (view self.old) (view self.new) result }
        ensures plan { (view self.new).plan ≡ (view self.old).plan }
        ensures faults { (view self.new).faults ≡ (view self.old).faults }
    {
        let kept = self.medium.mark().is_ok();
        if !kept {
            self.short = true;
        }
        kept
    }

    // Answers a call, and counts a refusal as a fault.
    fn answer(&mut self, done: bool) -> Result<(), Failed>
        ensures answer { is_err result ≡ not done }
        ensures counted { (view self.new).faults ≡ counted_faults (view self.old).faults (is_err result) }
        ensures cause { HasCause (view self.old).faults (view self.new).faults (is_err result) }
        ensures untouched { IsUntouched (view self.old) (view self.new) }
        ensures plan { (view self.new).plan ≡ (view self.old).plan }
    {
        if done {
            return Ok(());
        }
        self.faults = self.faults.saturating_add(1);
        Err(Failed)
    }

    // A read, by the call's fate.
    fn read_next(&mut self, at: usize, into: &mut [u8]) -> Result<(), Failed>
        requires { at + length into.old ≤ length (view self.old).bytes }
        ensures read { Reads at into.new (view self.old) (view self.new) (is_err result) }
        ensures counted { IsCounted (view self.old) (view self.new) (is_err result) }
        ensures cause { HasCause (view self.old).faults (view self.new).faults (is_err result) }
    {
        let done = match self.plan.count() {
            Fate::Runs => {
                into.copy_from_slice(&self.medium.bytes[at..at + into.len()]);
                true
            }
            Fate::AtCut | Fate::Refused => false,
        };
        self.answer(done)
    }

    // A write, by the call's fate.
    fn write_next(&mut self, at: usize, bytes: &[u8]) -> Result<(), Failed>
        requires { at + length bytes.now ≤ length (view self.old).bytes }
        ensures written { Writes at bytes.now (view self.old) (view self.new) (is_err result) }
        ensures counted { IsCounted (view self.old) (view self.new) (is_err result) }
        ensures cause { HasCause (view self.old).faults (view self.new).faults (is_err result) }
    {
        let done = match self.plan.count() {
            Fate::Runs => self.put(at, bytes),
            Fate::AtCut => {
                self.put(at, bytes);
                false
            }
            Fate::Refused => false,
        };
        self.answer(done)
    }

    // A sync, by the call's fate.
    fn sync_next(&mut self) -> Result<(), Failed>
        ensures synced { Syncs (view self.old) (view self.new) (is_err result) }
        ensures counted { IsCounted (view self.old) (view self.new) (is_err result) }
        ensures cause { HasCause (view self.old).faults (view self.new).faults (is_err result) }
    {
        let done = match self.plan.count() {
            Fate::Runs => self.mark(),
            Fate::AtCut | Fate::Refused => false,
        };
        self.answer(done)
    }
}

impl Disk for MemoryDisk {
    ghost seen = { λ disk. seen_of (view disk) };

    ghost lawful = { λ disk. lawful_after (view disk).bytes (view disk).events (view disk).faults
        disk.medium.word disk.medium.fits };

    fn size(&self) -> u64 {
        self.medium.bytes.len() as u64
    }

    fn read(&mut self, at: u64, into: &mut [u8]) -> Result<(), Failed>
        requires { at + length into.old ≤ length (view self.old).bytes }
        ensures bytes { OnOk result (ReadsPart (seen_of (view self.old)).reads at into.new) }
        ensures quiet { IsQuiet (seen_of (view self.old)) (seen_of (view self.new)) }
        ensures cause { HasCause (view self.old).faults (view self.new).faults (is_err result) }

        // It fails exactly where the plan says so.
        ensures exact { Reads at into.new (view self.old) (view self.new) (is_err result) }
        ensures counted { IsCounted (view self.old) (view self.new) (is_err result) }
    {
        self.read_next(at as usize, into)
    }

    fn write_at(&mut self, at: u64, bytes: &[u8]) -> Result<(), Failed>
        requires { at + length bytes.now ≤ length (view self.old).bytes }
        ensures written { OnOk result ((seen_of (view self.new)).reads
            ≡ option_map (patched at bytes.now) (seen_of (view self.old)).reads) }
        ensures wrote { WroteIn at (length bytes.now) (seen_of (view self.old)) (seen_of (view self.new)) }
        ensures cause { HasCause (view self.old).faults (view self.new).faults (is_err result) }

        // It fails exactly where the plan says so, or where its record finds no memory.
        ensures exact { Writes at bytes.now (view self.old) (view self.new) (is_err result) }
        ensures counted { IsCounted (view self.old) (view self.new) (is_err result) }
    {
        self.write_next(at as usize, bytes)
    }

    fn sync(&mut self) -> Result<(), Failed>
        ensures ok { OnOk result (IsSynced (seen_of (view self.old)) (seen_of (view self.new))) }
        ensures still { IsStill (seen_of (view self.old)) (seen_of (view self.new)) }
        ensures unsynced { OnErr result (StaysUnsynced (seen_of (view self.old)) (seen_of (view self.new))) }
        ensures cause { HasCause (view self.old).faults (view self.new).faults (is_err result) }

        // It fails exactly where the plan says so, or where its record finds no memory.
        ensures exact { Syncs (view self.old) (view self.new) (is_err result) }
        ensures counted { IsCounted (view self.old) (view self.new) (is_err result) }
    {
        self.sync_next()
    }
}
