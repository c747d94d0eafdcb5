//! Laws of what a stop leaves of a store. Each function does nothing: its contract is the law.

ghost use Rattle.std.specs.Prelude.{◌≡◌, List, [], ◌∷◌, None, IsTrue};
ghost use Rattle.sqlite.specs.Files.{over_files, HoldsDatabase};
ghost use Rattle.sqlite.specs.Held.{state};
ghost use Rattle.sqlite.specs.Tree.{Trees};
ghost use Rattle.sqlite_store.specs.FileStore as files;
ghost use Rattle.sqlite_wal.specs.Recovery.{Image};
ghost use Rattle.mf_model.specs.Institution.{Institution};
ghost use Rattle.mf_model.specs.Run.{Line};
ghost use Rattle.mf_model.specs.Sound.{IsSound, AreInRange};
ghost use Rattle.mf_model.specs.Store.{left_after};
ghost use Rattle.mf_play.specs.Play.{AreAsReceived};
ghost use Rattle.mf_store.specs.Stands.{IsClean, Leaves};
ghost use Rattle.mf_store_noted.specs.Tabled.{HoldsRowsOf};
ghost use Rattle.mf_store_schema.specs.declared.versions.Version.{Version};
ghost use Rattle.mf_store_told.specs.Told.{TellsRequests};
ghost use Rattle.mf_store_sound.specs.Held.{CanBeOpened, HoldsSound};
ghost use Rattle.mf_store_files.specs.Stops.{HoldsBeginning, IsLeftBy};

use mf_model::laws;
use mf_store::Store;
use sqlite::{Alter, FileStore};
use sqlite_disk::Disk;

/// Where a stop before a run left the institution that the run began with, and no other, whatever a stop after the run
/// leaves are the rows of one sound institution: the one after each request that was answered, or with the change of
/// one request more, of those that were given up since the last change. The requests have their members in range, as
/// those have that are read from texts.
pub fn left_is_a_beginning<S: Alter>(store: &Store<S>)
    ensures { (i : Institution) (run : List Line) → IsSound i → AreInRange run → IsClean S.Store store.now
        → Leaves S.Store store.now (left_after run i (i ∷ []))
        → (left : Trees) → (state S.Store store.now.connection).may_leave left → HoldsBeginning run i left }
{
    laws::soundness();
}

/// The same of the files of a store: whatever a stop leaves of these is a database with such rows. The store's trees
/// are numbered, as those of each connection are (`into_store` of `sqlite`).
pub fn left_files_hold_a_beginning<D: Disk>(store: &Store<FileStore<D>>)
    ensures { (i : Institution) (run : List Line) → IsSound i → AreInRange run → IsClean over_files store.now
        → Leaves over_files store.now (left_after run i (i ∷ []))
        → IsTrue (files.view store.now.connection.store).is_numbered → (left : Image)
        → (files.state store.now.connection.store).may_leave left
        → ∥ ((trees : Trees) × HoldsDatabase left trees × HoldsBeginning run i trees) ∥₁ }
{
    laws::soundness();
}

/// Where trees hold the rows of a sound institution, and its journal's where it keeps one, each line of which tells a
/// request, `open_with` makes a store of that institution over them, and doesn't answer F19. So does it over what a
/// stop leaves.
pub fn what_is_left_can_be_opened()
    ensures { (trees : Trees) (i : Institution) → IsSound i → HoldsRowsOf trees i → TellsRequests i.journal
        → (v : Version) × (opened : CanBeOpened v trees) × (opened.held.institution ≡ i) }
{}

/// Each line that a run notes tells a request: where the lines before it do, and each call of the run is what its text
/// asks, as those are that come as messages and lines (`mf_play::laws::texts_are_as_received`), those of the journal
/// that a stop leaves do too.
pub fn what_is_left_tells_requests()
    ensures { (run : List Line) (i j : Institution) → AreAsReceived run → TellsRequests i.journal → IsLeftBy run i j
        → TellsRequests j.journal }
{}

/// A journal doesn't begin by itself: where a run began with an institution that keeps none, the rows of what a stop
/// leaves are those of one that keeps none. So `open_with` makes a store of that institution, and doesn't answer F19.
pub fn no_journal_begins_by_itself()
    ensures { (run : List Line) (i j : Institution) (trees : Trees) → i.journal ≡ None → IsLeftBy run i j → IsSound j
        → HoldsRowsOf trees j → (held : HoldsSound trees) × (held.institution ≡ j) }
{}
