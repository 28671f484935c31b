//! Laws of backups: each is the contract of a function without a body.
ghost use Rattle.std.specs.Prelude.{◌≡◌, ◌<◌, length};
ghost use Rattle.newt_graph.specs.Graph.{IsGraph};
ghost use Rattle.newt_spec_nsof.specs.Written.{nsof};
ghost use Rattle.newt_spec_store.specs.Store.{Store};
ghost use Rattle.newt_backup.specs.Backup.{IsKept, backup};

/// The backup of a store is a graph, and its text is shorter than the longest input.
pub fn backups_are_graphs()
    ensures graph { (s : Store) → IsKept s → IsGraph (backup s) }
    ensures short { (s : Store) → IsKept s → length (nsof (backup s)) < 16777216 }
{}

/// Two stores with the same backup are the same store.
pub fn backups_are_of_one_store()
    ensures { (s t : Store) → IsKept s → IsKept t → backup s ≡ backup t → s ≡ t }
{}
