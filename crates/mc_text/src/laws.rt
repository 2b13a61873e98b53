//! Laws of the grammar, each a clause of a function that does nothing.

ghost use Rattle.std.specs.Prelude.{◌≡◌, ◌≢◌, ℕ, ◌<◌, ◌≤◌, Bool, true, false, List, [], ◌∷◌, ◌++◌, ◌⊎◌, All, Some, None, length, codes};
ghost use Rattle.mc_model.specs.declared.call.Verb.{Verb};
ghost use Rattle.mc_model.specs.declared.call.Verb.TheVariants.{Flush};
ghost use Rattle.mc_model.specs.Call.{Call, blank};
ghost use Rattle.mc_model.specs.Texts.{okay_text, error_text, version_text, bad_line_format_text, bad_data_chunk_text, object_too_large_text};
ghost use Rattle.mc_model.specs.Packed.{AreBytes};
ghost use Rattle.mc_text.specs.declared.limits.Limits.{Limits};
ghost use Rattle.mc_text.specs.declared.commands.Form.TheVariants as forms;
ghost use Rattle.mc_text.specs.declared.fields.Item.{Item};
ghost use Rattle.mc_text.specs.Bounds.{longest_line, longest_block};
ghost use Rattle.mc_text.specs.Meaning.{Meaning, Quit, One, Each, Everywhere, calls_of};
ghost use Rattle.mc_text.specs.Lines.{Ends, Wants, fixed, refused, item_call};
ghost use Rattle.mc_text.specs.Forms.{words_of, AreKeyWords, NotAllKeyWords, IsKeyWord, NotKeyWord, IsSmallNumber, NotSmallNumber, NotUnique, IsExptime, NotExptime, HasCommand, too_large_line, VerbosityWords, verbosity_words};
ghost use Rattle.mc_text.specs.Forms.{ItemWords, storage_words, IsStorageLine, HasItem, HasBadField, CasWords, cas_words, IsCasLine, storage_meaning, CasItem, HasCasItem, cas_meaning};
ghost use Rattle.mc_text.specs.Forms.{IsGetLine, GatWords, IsGatLine, gat_meaning, TouchWords, touch_words, IsTouchLine, touch_meaning};
ghost use Rattle.mc_text.specs.Forms.{ZeroWords, zero_words, HasZero, HasOtherWord, DeleteWords, delete_words, IsDeleteLine, delete_meaning, plain_call, IsFlushLine, IsVerbosityLine, BeginsWith, IsUnknown};
ghost use Rattle.mc_text.specs.Spells.{Spells, Completed, lf, crlf, line_says, too_long, finished};
ghost use Rattle.mc_text.specs.Reads.{BeginsSome};
ghost use Rattle.mc_text.specs.Stream.{Splits, IsPrefixOf, requests, rest_of, own_calls};
ghost use Rattle.mc_text.specs.Fits.{IsFit, HasBytes};

/// No spelling is a proper prefix of another, and a text spells one request.
pub fn one_spelling()
    ensures { (l : Limits) (text more : List ℕ) (m n : Meaning)
        → Spells l text m → Spells l (text ++ more) n → (more ≡ []) × (m ≡ n) }
{}

/// Each list of bytes has a spelling among its prefixes, or is a prefix of one.
pub fn no_dead_end()
    ensures { (l : Limits) (bytes : List ℕ) → BeginsSome l bytes ⊎ Completed l bytes }
{}

/// However a stream is cut, its requests are the same.
pub fn any_cut()
    ensures split { (l : Limits) (bytes : List ℕ) → Splits l bytes (requests l bytes) (rest_of l bytes) }
    ensures one { (l : Limits) (bytes : List ℕ) (ms ns : List Meaning) (a b : List ℕ)
        → Splits l bytes ms a → Splits l bytes ns b → (ms ≡ ns) × (a ≡ b) }
    ensures pieces { (l : Limits) (a b : List ℕ) (ms ns : List Meaning) (held rest : List ℕ)
        → Splits l a ms held → Splits l (held ++ b) ns rest → Splits l (a ++ b) (ms ++ ns) rest }
    ensures own { (l : Limits) (a b : List ℕ) → IsPrefixOf (own_calls l a) (own_calls l (a ++ b)) }
{}

/// What holds of each call of a spelled request. If the request is bytes, so are the key and the
/// block of each of its calls.
pub fn calls_fit()
    ensures fit { (l : Limits) (text : List ℕ) (m : Meaning)
        → 0 < l.buckets → Spells l text m → All (IsFit l) (calls_of l.buckets m) }
    ensures bytes { (l : Limits) (text : List ℕ) (m : Meaning)
        → AreBytes text → Spells l text m → All HasBytes (calls_of l.buckets m) }
{}

/// What each form of line asks for, and which text refuses a line that has a fault. The order of
/// the clauses of a command is the order of its tests.
pub fn lines_mean()
    ensures no_word { (line : List ℕ) → words_of line ≡ [] → line_says line ≡ refused error_text }
    ensures unknown { (line w : List ℕ) (ws : List (List ℕ))
        → BeginsWith line w ws → IsUnknown w → line_says line ≡ refused error_text }
    ensures storage_words { (line : List ℕ) (verb : Verb) (ws : List (List ℕ)) → HasCommand line forms.Storage verb ws
        → ((w : ItemWords) → ws ≢ storage_words w) → line_says line ≡ refused error_text }
    ensures storage_field { (line : List ℕ) (verb : Verb) (w : ItemWords)
        → IsStorageLine line verb w → HasBadField w → line_says line ≡ refused bad_line_format_text }
    ensures storage_size { (line : List ℕ) (verb : Verb) (w : ItemWords) (i : Item) → IsStorageLine line verb w
        → HasItem w i → longest_block < i.bytes → line_says line ≡ too_large_line }
    ensures storage { (line : List ℕ) (verb : Verb) (w : ItemWords) (i : Item) → IsStorageLine line verb w → HasItem w i
        → i.bytes ≤ longest_block → line_says line ≡ storage_meaning verb w i }
    ensures cas_words { (line : List ℕ) (verb : Verb) (ws : List (List ℕ)) → HasCommand line forms.CheckAndSet verb ws
        → ((w : CasWords) → ws ≢ cas_words w) → line_says line ≡ refused error_text }
    ensures cas_field { (line : List ℕ) (verb : Verb) (w : CasWords)
        → IsCasLine line verb w → HasBadField w.item → line_says line ≡ refused bad_line_format_text }
    ensures cas_unique { (line : List ℕ) (verb : Verb) (w : CasWords)
        → IsCasLine line verb w → NotUnique w.unique → line_says line ≡ refused bad_line_format_text }
    ensures cas_size { (line : List ℕ) (verb : Verb) (w : CasWords) (v : CasItem) → IsCasLine line verb w
        → HasCasItem w v → longest_block < v.item.bytes → line_says line ≡ too_large_line }
    ensures cas { (line : List ℕ) (verb : Verb) (w : CasWords) (v : CasItem) → IsCasLine line verb w
        → HasCasItem w v → v.item.bytes ≤ longest_block → line_says line ≡ cas_meaning verb w v }
    ensures get_words { (line : List ℕ) (verb : Verb) → IsGetLine line verb [] → line_says line ≡ refused error_text }
    ensures get_keys { (line : List ℕ) (verb : Verb) (keys : List (List ℕ))
        → IsGetLine line verb keys → NotAllKeyWords keys → line_says line ≡ refused bad_line_format_text }
    ensures get { (line : List ℕ) (verb : Verb) (keys : List (List ℕ)) → IsGetLine line verb keys
        → AreKeyWords keys → line_says line ≡ Ends (Each (blank verb) keys) }
    ensures gat_words { (line : List ℕ) (verb : Verb) (ws : List (List ℕ))
        → HasCommand line forms.GetAndTouch verb ws → length ws < 2 → line_says line ≡ refused error_text }
    ensures gat_keys { (line : List ℕ) (verb : Verb) (w : GatWords)
        → IsGatLine line verb w → NotAllKeyWords w.keys → line_says line ≡ refused bad_line_format_text }
    ensures gat_exptime { (line : List ℕ) (verb : Verb) (w : GatWords) → IsGatLine line verb w
        → 0 < length w.keys → NotExptime w.exptime → line_says line ≡ refused bad_line_format_text }
    ensures gat { (line : List ℕ) (verb : Verb) (w : GatWords) (e : Bool × ℕ) → IsGatLine line verb w
        → AreKeyWords w.keys → IsExptime w.exptime e → line_says line ≡ gat_meaning verb w e }
    ensures touch_words { (line : List ℕ) (verb : Verb) (ws : List (List ℕ)) → HasCommand line forms.Touch verb ws
        → ((w : TouchWords) → ws ≢ touch_words w) → line_says line ≡ refused error_text }
    ensures touch_key { (line : List ℕ) (verb : Verb) (w : TouchWords)
        → IsTouchLine line verb w → NotKeyWord w.key → line_says line ≡ refused bad_line_format_text }
    ensures touch_exptime { (line : List ℕ) (verb : Verb) (w : TouchWords)
        → IsTouchLine line verb w → NotExptime w.exptime → line_says line ≡ refused bad_line_format_text }
    ensures touch { (line : List ℕ) (verb : Verb) (w : TouchWords) (e : Bool × ℕ) → IsTouchLine line verb w
        → IsKeyWord w.key → IsExptime w.exptime e → line_says line ≡ touch_meaning verb w e }
    ensures delete_words { (line : List ℕ) (verb : Verb) (ws : List (List ℕ)) → HasCommand line forms.Deletion verb ws
        → ((w : DeleteWords) → ws ≢ delete_words w) → line_says line ≡ refused error_text }
    ensures delete_zero { (line : List ℕ) (verb : Verb) (w : DeleteWords)
        → IsDeleteLine line verb w → HasOtherWord w.zero → line_says line ≡ refused bad_line_format_text }
    ensures delete_key { (line : List ℕ) (verb : Verb) (w : DeleteWords)
        → IsDeleteLine line verb w → HasZero w.zero → NotKeyWord w.key → line_says line ≡ refused bad_line_format_text }
    ensures delete { (line : List ℕ) (verb : Verb) (w : DeleteWords) → IsDeleteLine line verb w
        → HasZero w.zero → IsKeyWord w.key → line_says line ≡ delete_meaning verb w }
    ensures flush_words { (line : List ℕ) (ws : List (List ℕ)) → BeginsWith line (codes "flush_all") ws
        → ((w : ZeroWords) → ws ≢ zero_words w) → line_says line ≡ refused error_text }
    ensures flush_zero { (line : List ℕ) (w : ZeroWords)
        → IsFlushLine line w → HasOtherWord w → line_says line ≡ refused bad_line_format_text }
    ensures flush { (line : List ℕ) (w : ZeroWords)
        → IsFlushLine line w → HasZero w → line_says line ≡ Ends (Everywhere (plain_call Flush w.noreply)) }
    ensures version_words { (line w : List ℕ) (ws : List (List ℕ))
        → BeginsWith line (codes "version") (w ∷ ws) → line_says line ≡ refused error_text }
    ensures version { (line : List ℕ) → BeginsWith line (codes "version") []
        → line_says line ≡ Ends (One (fixed version_text false) false) }
    ensures verbosity_words { (line : List ℕ) (ws : List (List ℕ)) → BeginsWith line (codes "verbosity") ws
        → ((w : VerbosityWords) → ws ≢ verbosity_words w) → line_says line ≡ refused error_text }
    ensures verbosity_number { (line : List ℕ) (w : VerbosityWords)
        → IsVerbosityLine line w → NotSmallNumber w.level → line_says line ≡ refused bad_line_format_text }
    ensures verbosity { (line : List ℕ) (w : VerbosityWords) (level : ℕ) → IsVerbosityLine line w
        → IsSmallNumber w.level level → line_says line ≡ Ends (One (fixed okay_text w.noreply) false) }
    ensures quit_words { (line w : List ℕ) (ws : List (List ℕ))
        → BeginsWith line (codes "quit") (w ∷ ws) → line_says line ≡ refused error_text }
    ensures quit { (line : List ℕ) → BeginsWith line (codes "quit") [] → line_says line ≡ Ends Quit }
{}

/// What a line without an end asks for. What a block asks for, by the two bytes after it and by its
/// size.
pub fn blocks_mean()
    ensures long_line { (l : Limits) (text : List ℕ)
        → length text ≡ longest_line → lf text ≡ None → Spells l text too_long }
    ensures bad_chunk { (l : Limits) (c : Call) (keys : List (List ℕ)) (block ending : List ℕ)
        → ending ≢ crlf → finished l c keys block ending ≡ One (fixed bad_data_chunk_text c.noreply) false }
    ensures too_large { (l : Limits) (c : Call) (keys : List (List ℕ)) (block : List ℕ) → l.value_bytes < length block
        → finished l c keys block crlf ≡ One (fixed object_too_large_text c.noreply) false }
    ensures whole { (l : Limits) (c : Call) (keys : List (List ℕ)) (block : List ℕ) → length block ≤ l.value_bytes
        → finished l c keys block crlf ≡ Each (record c { block = block }) keys }
{}
