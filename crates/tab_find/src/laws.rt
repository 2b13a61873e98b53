//! Laws of honest runs of each part, each a clause of a function that does nothing.

ghost use Rattle.std.specs.Prelude.{ℕ, ◌+◌, ◌*◌, ◌≤◌, List, length};
ghost use Rattle.mc_model.specs.declared.geometry.Geometry.{Geometry};
ghost use Rattle.mc_model.specs.declared.outcome.Change.TheVariants as change;
ghost use Rattle.mc_model.specs.Bucket.{Bucket, Item};
ghost use Rattle.sei_stmt.specs.Programs.{Ends};
ghost use Rattle.sei_stmt.specs.Runs.{Given, RunState};
ghost use Rattle.tab_find.specs.Begins.{Leads, JustParsed, CanFind, CanAsk, CanCopyTo, CanStoreOver, CanChange, CanPut, CanPutExpiry, until};
ghost use Rattle.tab_find.specs.Copies.{Copied, HasStored, store_steps};
ghost use Rattle.tab_find.specs.FindPrograms.{moment_program, find_program, free_program};
ghost use Rattle.tab_find.specs.Found.{Arrived, Sought, Offered, Changed};
ghost use Rattle.tab_find.specs.Registers.{r_limit};
ghost use Rattle.tab_find.specs.StorePrograms.{copy_run, store_value, put_program, put_expiry_program, clear_program};

/// The moment's program leaves words that stand for the bucket as it is when the call arrives, and sets the constants.
pub fn moment_stands()
    ensures { (g : Geometry) (e : Given) (b : Bucket) → Leads e (JustParsed g b) (moment_program g) (Arrived g e.now b) 1 20 }
{}

/// The find gives the place of the slot that has the key's item, or the end of all slots exactly if
/// the key has none.
pub fn find_stands()
    ensures { (g : Geometry) (e : Given) (b : Bucket) (key : List ℕ) (s : RunState) (bound : ℕ) → CanFind g e b key s →
        s.steps + 300 * g.slots + 20 ≤ bound → Ends e find_program s (Sought g s.words b key bound) }
{}

/// The program of a free slot gives the place of a free slot, or the end of all slots exactly if
/// none is free.
pub fn free_ends()
    ensures { (g : Geometry) (e : Given) (m : ℕ) (s : RunState) (bound : ℕ) → CanAsk g e m s →
        s.steps + 3 * g.slots + 10 ≤ bound → bound ≤ e.budget → Ends e free_program s (Offered g s.words m bound) }
{}

/// The copy of the key's words writes them from the address on, and no other word.
pub fn key_is_copied()
    ensures { (e : Given) (index : ℕ) (vs ws : List ℕ) (a : ℕ) →
        Leads e (CanCopyTo e index vs ws a) (copy_run r_limit) (Copied vs ws a) (length vs) (5 * length vs) }
{}

/// The copy of a value gives the slot that value. The fields of all slots stay, and so do the
/// values of the other taken slots.
pub fn value_is_stored()
    ensures { (g : Geometry) (e : Given) (ws : List ℕ) (m index i : ℕ) (vs : List ℕ) → Leads e (CanStoreOver g e ws index i vs)
        (store_value index) (HasStored g m ws i vs) (length vs) (store_steps (length vs)) }
{}

/// After the find of a key's item, the program that puts an item leaves words that stand for the bucket with that item at the key.
/// The counter stays.
pub fn item_is_put()
    ensures { (g : Geometry) (e : Given) (b : Bucket) (key : List ℕ) (x : Item) (index w : ℕ) →
        Leads e (CanPut g e b key x index w) (put_program index) (Changed g key (change.Put x) b) (4 + w) (5 * w + 15) }
{}

/// After the find of a key's item, the program that puts an expiry leaves words that stand for the bucket with that expiry in the
/// item. All else of the item stays.
pub fn expiry_is_put()
    ensures { (g : Geometry) (e : Given) (b : Bucket) (key : List ℕ) (old : Item) (expiry : ℕ) →
        Leads e (CanPutExpiry g b key old expiry) put_expiry_program (Changed g key (change.Put (until expiry old)) b) 1 2 }
{}

/// The program that removes all items leaves words that stand for the bucket with no items.
pub fn items_are_cleared()
    ensures { (g : Geometry) (e : Given) (b : Bucket) (key : List ℕ) →
        Leads e (CanChange g b) clear_program (Changed g key change.Clear b) g.slots (3 * g.slots + 1) }
{}
