//! The laws of queues. Each function does nothing: what it ensures is the law.
ghost use Rattle.std.specs.Prelude.{◌≡◌, ℕ, ◌*◌, ◌≤◌, List, Option, length};
ghost use Rattle.shelf_model.specs.declared.file_no.FileNo.{FileNo};
ghost use Rattle.shelf_model.specs.World.{World, now, file};
ghost use Rattle.shelf_model.specs.Moments.{Ran, Stays};
ghost use Rattle.run_tiers.specs.declared.parts.Parts.{Parts};
ghost use Rattle.run_tiers.specs.declared.run.RunTable.{RunTable};
ghost use Rattle.run_tiers.specs.Parts.{Took, Spilled};
ghost use Rattle.run_tiers.specs.Syncs.{AnyFroze};
ghost use Rattle.level_queue.specs.declared.queue.LevelQueue.{LevelQueue};
ghost use Rattle.level_queue.specs.Queues.{held, credit, IsInStep, IsRunOf, Serves, Lists};
ghost use Rattle.level_queue.specs.Tables.{AreFirmTables, ServeTables, TablesList, TablesStay};

use rec_words::Spill;

/// A queue holds as many items as its list has.
pub fn list_is_counted<T: Spill>()
    ensures { (q : LevelQueue T) (world : World) (xs : List T) →
        Lists T.is_value T.words T.cmp q world xs → length xs ≡ held q }
{}

/// A queue stands for one list.
pub fn list_is_unique<T: Spill>()
    ensures { (q : LevelQueue T) (world : World) (xs ys : List T) →
        Lists T.is_value T.words T.cmp q world xs → Lists T.is_value T.words T.cmp q world ys → xs ≡ ys }
{}

/// A queue's list stays where the bytes of its runs stay, also over a stop.
pub fn list_stays<T: Spill>()
    ensures { (q : LevelQueue T) (old new : World) (xs : List T) →
        ((f : FileNo) → IsRunOf q f → (file new f).bytes ≡ (file old f).bytes) →
        Lists T.is_value T.words T.cmp q old xs → Lists T.is_value T.words T.cmp q new xs }
{}

/// A queue's windows hold what the files of its runs do while the bytes of these stay.
pub fn in_step_stays<T>()
    ensures { (q : LevelQueue T) (old new : World) →
        ((f : FileNo) → IsRunOf q f → (file new f).bytes ≡ (file old f).bytes) →
        IsInStep q old → IsInStep q new }
{}

/// A queue's list stays while no file changes.
pub fn list_stays_unchanged<T: Spill>()
    ensures { (q : LevelQueue T) (old new : World) (xs : List T) → Ran (Stays (now old)) old new →
        Lists T.is_value T.words T.cmp q old xs → Lists T.is_value T.words T.cmp q new xs }
{}

/// And it stays where parts that can serve the queue are taken, and only their files changed.
pub fn list_stays_with_parts<T: Spill>()
    ensures { (q : LevelQueue T) (before after : Parts) (old new : World) (xs : List T) →
        Serves before q → Spilled before after old new →
        Lists T.is_value T.words T.cmp q old xs → Lists T.is_value T.words T.cmp q new xs }
{}

/// Parts that can serve a queue still can when some of them were taken.
pub fn parts_serve_on<T>()
    ensures { (q : LevelQueue T) (old new : Parts) → Serves old q → Took old new → Serves new q }
{}

/// What is paid to a queue for calls is at most 64 for each of its items.
pub fn credit_is_bounded<T>()
    ensures { (q : LevelQueue T) → credit q ≤ 64 * held q }
{}

/// A queue's list stays where others and sorters are frozen, with parts that can serve it.
pub fn list_stays_frozen<T: Spill>()
    ensures { (q : LevelQueue T) (before after : Parts) (old new : World) (xs : List T) →
        Serves before q → Ran (AnyFroze before after (now old)) old new →
        Lists T.is_value T.words T.cmp q old xs → Lists T.is_value T.words T.cmp q new xs }
{}

/// What tables stand for stays where the bytes of their runs do up to where they end, also over a stop.
pub fn tables_stay<T: Spill>()
    ensures { (step : ℕ) (tables : List RunTable) (last : Option T) (old new : World) (xs : List T) →
        TablesStay step tables old new →
        TablesList T.is_value T.words T.cmp step tables last old xs →
        TablesList T.is_value T.words T.cmp step tables last new xs }
{}

/// It stays, and their runs stay their own only images, where queues and sorters are frozen with parts that can serve
/// them.
pub fn tables_stay_frozen<T: Spill>()
    ensures { (tables : List RunTable) (last : Option T) (before after : Parts) (old new : World) (xs : List T) →
        ServeTables before tables → Ran (AnyFroze before after (now old)) old new →
        AreFirmTables before.step tables old → TablesList T.is_value T.words T.cmp before.step tables last old xs →
        AreFirmTables before.step tables new × TablesList T.is_value T.words T.cmp before.step tables last new xs }
{}
