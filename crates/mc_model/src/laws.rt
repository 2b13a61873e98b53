//! Laws of the definitions, each a clause of a function that does nothing.

ghost use Rattle.std.specs.Prelude.{◌≡◌, ◌≢◌, ◌⊎◌, ℕ, ◌≤◌, Bool, true, false, max, List, [], ◌++◌, Some, None, length, codes};
ghost use Rattle.mc_model.specs.declared.call.Room.{Room};
ghost use Rattle.mc_model.specs.declared.call.Verb.TheVariants.{Cas, Get, Gets};
ghost use Rattle.mc_model.specs.declared.geometry.Geometry.{Geometry};
ghost use Rattle.mc_model.specs.Texts.{line};
ghost use Rattle.mc_model.specs.Bucket.{Item, Bucket, IsBucket, empty_bucket, lookup, arrived, if_live};
ghost use Rattle.mc_model.specs.Call.{Call, Placed};
ghost use Rattle.mc_model.specs.Replies.{value_text, end_text};
ghost use Rattle.mc_model.specs.Answer.{answer};
ghost use Rattle.mc_model.specs.Found.{left_by, reply_to, moment_in, found, HasStored, LeavesKey, Asks, own_item, shown, LaterGet, bucket_then, GetsStored};
ghost use Rattle.mc_model.specs.Server.{IsValid, room_of, Server, bucket_at, server_answer};
ghost use Rattle.mc_model.specs.Within.{IsWithin};

/// A bucket is a finite map within its room: the number of its items is limited, and so are the
/// bytes of each value. The empty bucket is within every room, and an answer keeps a bucket within
/// its room.
pub fn buckets_stay_within_their_room()
    ensures empty { (room : Room) → IsWithin room empty_bucket }
    ensures answer { (g : Geometry) (b : Bucket) (now : ℕ) (c : Call) →
        IsValid g → IsWithin (room_of g) b → length c.block ≤ (room_of g).value_bytes →
        IsWithin (room_of g) (answer (room_of g) b now c).0 }
{}

/// After a block was stored, its key has the item that the call spells, until it expires. While
/// other calls do not change that key, a `get` shows the flags and the value of that call.
pub fn get_shows_what_was_stored()
    ensures item { (room : Room) (b : Bucket) (now : ℕ) (c : Call) → IsBucket b → HasStored room b now c
        → lookup c.key (left_by room b now c).items ≡ if_live (moment_in now b) (Some (own_item room b now c)) }
    ensures shown { (s : LaterGet) → GetsStored s
        → reply_to s.room (bucket_then s) s.later s.get ≡ shown s.call.key s.call.flags s.call.block s.get.last }
{}

/// A `cas` stores exactly if it names the unique of the item, which is the one that `gets` shows.
/// If it names another one, only expired items are removed.
pub fn cas_compares_the_unique()
    ensures gets { (room : Room) (b : Bucket) (now : ℕ) (c : Call) (x : Item) → Asks Gets c
        → found now b c.key ≡ Some x → reply_to room b now c ≡ value_text true c.key x ++ end_text c.last }
    ensures same { (room : Room) (b : Bucket) (now : ℕ) (c : Call) (x : Item) → Asks Cas c
        → found now b c.key ≡ Some x → x.unique ≡ c.unique → reply_to room b now c ≡ line (codes "STORED") }
    ensures other { (room : Room) (b : Bucket) (now : ℕ) (c : Call) (x : Item) → Asks Cas c
        → found now b c.key ≡ Some x → x.unique ≢ c.unique → answer room b now c ≡ (arrived now b, line (codes "EXISTS")) }
    ensures absent { (room : Room) (b : Bucket) (now : ℕ) (c : Call) → Asks Cas c
        → found now b c.key ≡ None → answer room b now c ≡ (arrived now b, line (codes "NOT_FOUND")) }
{}

/// A call marked `noreply` does what it does without the mark, and its reply is empty.
pub fn noreply_changes_the_reply_alone()
    ensures { (room : Room) (b : Bucket) (now : ℕ) (c : Call)
        → answer room b now (record c { noreply = true }) ≡ (left_by room b now (record c { noreply = false }), []) }
{}

/// What a call does not change: what another key has, except for expiry; the bucket, if the call
/// only reads; and all other buckets. The bucket's moment becomes the largest of 1, the old moment
/// and the time.
pub fn calls_leave_the_rest()
    ensures key { (room : Room) (b : Bucket) (now : ℕ) (c : Call) (key : List ℕ) → IsBucket b → LeavesKey key c
        → lookup key (left_by room b now c).items ≡ if_live (moment_in now b) (lookup key b.items) }
    ensures reads { (room : Room) (b : Bucket) (now : ℕ) (c : Call)
        → (c.verb ≡ Get) ⊎ (c.verb ≡ Gets) → left_by room b now c ≡ arrived now b }
    ensures buckets { (s : Server) (now : ℕ) (p : Placed) (other : ℕ)
        → other ≢ p.bucket → bucket_at (server_answer s now p).0 other ≡ bucket_at s other }
    ensures moment { (room : Room) (b : Bucket) (now : ℕ) (c : Call)
        → (left_by room b now c).moment ≡ max 1 (max b.moment now) }
{}
