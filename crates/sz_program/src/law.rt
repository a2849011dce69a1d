//! Laws on what a run came to, each a line. Each is a theorem, which the function of its name carries; a call does
//! nothing.
ghost use Rattle.std.specs.Prelude.{◌≡◌, ◌≢◌, ◌⊎◌, ◌==◌, ◌∷◌, ℕ, true, List, [], Some, None, IfSome, codes};
ghost use Rattle.std.specs.Str.{is_utf8};
ghost use Rattle.sz_spec.specs.Cause.{HasCause, Rose};
ghost use Rattle.sz_spec.specs.Told.{Appends};
ghost use Rattle.sz_device.specs.OnboardRan.{IsBootOf, LeavesUncommitted, PutsInPlace};
ghost use Rattle.sz_device.specs.OnboardRan.{Words as OnboardWords};
ghost use Rattle.sz_keys.specs.CheckLine.{status_of, text_of};
ghost use Rattle.sz_keys.specs.CheckRan.{IsSigned, Paths, answer_over};
ghost use Rattle.sz_keys.specs.SignRan.{HasSpent, Words};
ghost use Rattle.sz_record.specs.declared.device.Device.{Device};
ghost use Rattle.sz_program.specs.Complete.{Completed, EndsByItsRow, IsCalm, IsStatus, IsUndisturbed};
ghost use Rattle.sz_program.specs.Outside.{Outside};
ghost use Rattle.sz_program.specs.Ran.{RunOk, onboard_part, sign_part};
ghost use Rattle.sz_program.specs.Words.{Check, Command as SomeCommand, IsPlain, Onboard, Sign, check_of, words_of};

use sz_device::an_undisturbed_onboard_is_complete;
use sz_disk::Disk;

/// What a check is answered. Where the folder tells its files, 0 is an HSS signature of the file, 3 is none, and
/// where neither folder nor output failed and there was memory, status and line are those of the one answer.
pub fn checks_are_right<D: Disk>()
    ensures signed { (words : List (List ℕ)) (paths : Paths) (before after : Outside D) (status : ℕ)
        → RunOk D.seen words before after status → words_of words ≡ Some (Check paths) → status ≡ 0
        → IfSome before.folder.files (λ files. IsSigned files paths) }
    ensures unsigned { (words : List (List ℕ)) (paths : Paths) (before after : Outside D) (status : ℕ)
        → RunOk D.seen words before after status → words_of words ≡ Some (Check paths) → status ≡ 3
        → IfSome before.folder.files (λ files. ¬ (IsSigned files paths)) }
    ensures exact { (words : List (List ℕ)) (paths : Paths) (before after : Outside D) (status : ℕ)
        → RunOk D.seen words before after status → words_of words ≡ Some (Check paths) → status ≢ 32 → status ≢ 70
        → ¬ (Rose before.folder.faults after.folder.faults) → IfSome before.folder.files (λ files.
        (status ≡ status_of (answer_over files paths))
        × Appends before.out.written after.out.written (text_of (answer_over files paths))) }
{}

/// Which words are a check: three behind its name that are UTF-8 and don't begin with a hyphen, or any three of UTF-8
/// behind `--`, each a path as it stands. A fourth makes them none.
pub fn three_words_are_a_check()
    ensures plain { (public file signature : List ℕ) → IsPlain public → IsPlain file → IsPlain signature
        → words_of (codes "check" ∷ public ∷ file ∷ signature ∷ []) ≡ Some (check_of public file signature) }
    ensures behind_dashes { (public file signature : List ℕ)
        → is_utf8 public ≡ true → is_utf8 file ≡ true → is_utf8 signature ≡ true
        → words_of (codes "check" ∷ codes "--" ∷ public ∷ file ∷ signature ∷ [])
        ≡ Some (check_of public file signature) }
    ensures fourth { (public file signature fourth : List ℕ) (rest : List (List ℕ))
        → IsPlain public → IsPlain file → IsPlain signature → IsPlain fourth
        → words_of (codes "check" ∷ public ∷ file ∷ signature ∷ fourth ∷ rest) ≡ None }
{}

/// An output fault is status 32, and a check leaves the files as they were.
pub fn every_run_is_quiet<D: Disk>()
    ensures output { (words : List (List ℕ)) (before after : Outside D) (status : ℕ)
        → RunOk D.seen words before after status → HasCause before.out.faults after.out.faults (status == 32) }
    ensures unchanged { (words : List (List ℕ)) (paths : Paths) (before after : Outside D) (status : ℕ)
        → RunOk D.seen words before after status → words_of words ≡ Some (Check paths)
        → after.folder.files ≡ before.folder.files }
{}

/// A sign changes the files only where its leaf number is spent: every image that a crash may then leave of the disk
/// has the number behind the key's next one. So it is with every status.
pub fn a_leaf_is_spent_first<D: Disk>()
    ensures { (words : List (List ℕ)) (own : Words) (before after : Outside D) (status : ℕ)
        → RunOk D.seen words before after status → words_of words ≡ Some (Sign own)
        → (after.folder.files ≡ before.folder.files) ⊎ HasSpent D.seen own (sign_part before) (sign_part after) }
{}

/// An onboard that ends with 10 put an image in place, and one that ends with 20 left a device that is not committed
/// as it was: so it is of whatever device its disk read as.
pub fn a_boot_ends_as_its_status_says<D: Disk>()
    ensures restart { (words : List (List ℕ)) (own : OnboardWords) (before after : Outside D) (status : ℕ)
        → RunOk D.seen words before after status → words_of words ≡ Some (Onboard own) → status ≡ 10
        → IsBootOf D.seen PutsInPlace own (onboard_part before) (onboard_part after) }
    ensures no_source { (words : List (List ℕ)) (own : OnboardWords) (before after : Outside D) (status : ℕ)
        → RunOk D.seen words before after status → words_of words ≡ Some (Onboard own) → status ≡ 20
        → IsBootOf D.seen LeavesUncommitted own (onboard_part before) (onboard_part after) }
{}

/// An onboard that nothing disturbs, of a device that is not committed, ends with 0, 10 or 20 by the first offer that
/// the device takes, or with 70 for want of memory.
pub fn an_undisturbed_run_is_complete<D: Disk>()
    ensures { (words : List (List ℕ)) (own : OnboardWords) (before after : Outside D) (status : ℕ) (old new : D)
        (device : Device) (sequence : ℕ) → RunOk D.seen words before after status
        → words_of words ≡ Some (Onboard own) → IsUndisturbed D.seen own before after old new device sequence
        → (status ≡ 70) ⊎ Completed D.seen own before after old new device status }
{
    an_undisturbed_onboard_is_complete::<D>();
}

/// A run ends with the number of an ending, or with that of an output that failed. A command other than an onboard,
/// whose files and disks are there and over which no count rises, is done or ends by what it found, or by want of
/// memory.
pub fn statuses_are_those_of_endings<D: Disk>()
    ensures each { (words : List (List ℕ)) (before after : Outside D) (status : ℕ)
        → RunOk D.seen words before after status → IsStatus status }
    ensures calm { (words : List (List ℕ)) (command : SomeCommand) (before after : Outside D) (status : ℕ)
        → RunOk D.seen words before after status → IsCalm D.seen words command before after → EndsByItsRow status }
{}
