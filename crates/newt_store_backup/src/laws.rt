//! A law of backups and of the stores that are restored of them.
ghost use Rattle.std.specs.Prelude.{◌≡◌, ℕ, List, Option, Result, Ok};
ghost use Rattle.newt_base.specs.declared.Refusal.{Refusal};
ghost use Rattle.newt_spec_nsof.specs.Written.{nsof};
ghost use Rattle.newt_spec_store.specs.Store.{Store};
ghost use Rattle.newt_backup.specs.Backup.{IsKept, backup};
ghost use Rattle.newt_store_backup.specs.Restored.{IsRestored, restored};

/// Of the text of a store's backup this very store is restored, and no other: a refusal is one of
/// the device.
pub fn backups_are_restored()
    ensures made { (s : Store) → IsKept s → (device : Option (List ℕ)) →
        IsRestored (nsof (backup s)) device (restored (Ok s) device) }
    ensures no_other { (s : Store) → IsKept s → (device : Option (List ℕ)) →
        (outcome : Result Store Refusal) → IsRestored (nsof (backup s)) device outcome →
        outcome ≡ restored (Ok s) device }
{}
