//! Laws of the definitions, each a clause of a function that does nothing.

ghost use Rattle.std.specs.Prelude.{◌≡◌, ℕ, ◌<◌, ◌≤◌, ◌*◌, ◌^◌, List, length, map, All, Some, None, slice_get};
ghost use Rattle.mc_model.specs.declared.geometry.Geometry.{Geometry};
ghost use Rattle.mc_model.specs.Bucket.{Bucket};
ghost use Rattle.mc_model.specs.Call.{Placed};
ghost use Rattle.mc_model.specs.Packed.{AreBytes};
ghost use Rattle.mc_model.specs.Server.{IsValid, room_of};
ghost use Rattle.mc_text.specs.declared.limits.Limits.{Limits};
ghost use Rattle.mc_text.specs.Meaning.{Meaning};
ghost use Rattle.mc_text.specs.Commands.{read_numbers};
ghost use Rattle.mc_text.specs.Fits.{HasBytes};
ghost use Rattle.mc_text.specs.Spells.{Spells};
ghost use Rattle.sei_stmt.specs.declared.stmt.Stmt.{Stmt};
ghost use Rattle.sei_stmt.specs.Handling.{Parsed, parsed_words};
ghost use Rattle.sei_pass.specs.Spaces.{input_room, words_before_block};
ghost use Rattle.sei_hand.specs.HandsBehavior.{hands_behavior};
ghost use Rattle.sei_hand.specs.InputWords.{input_words};
ghost use Rattle.sei_hand.specs.Requests.{limits_of, request_of, call_in, call_or_blank, count_of_calls, parsed_of, parsed_call};
ghost use Rattle.mc_model.specs.Answer.{answer};
ghost use Rattle.mc_render.specs.Rendering.{rendered};
ghost use Rattle.sei_stmt.specs.Sound.{IsSound, IsSoundHandler};
ghost use Rattle.sei_words.specs.Stands.{StandsFor};
ghost use Rattle.tab_find.specs.Inputs.{block_index};
ghost use Rattle.sei_hand.specs.Commands.{rows, hands_table};
ghost use Rattle.sei_hand.specs.Served.{Stands, answer_of, space_for};
ghost use Rattle.sei_hand.specs.ReadCall.{IsReadCall, ComesFrom};

/// The request of an input is the one that it spells.
pub fn requests_are_spelled()
    ensures found { (l : Limits) (bytes : List ℕ) (m : Meaning) → request_of l bytes ≡ Some m → Spells l bytes m }
    ensures exact { (l : Limits) (bytes : List ℕ) (m : Meaning) → Spells l bytes m → request_of l bytes ≡ Some m }
    ensures none { (l : Limits) (bytes : List ℕ) → ((m : Meaning) → Spells l bytes m → ⊥) → request_of l bytes ≡ None }
{}

/// What a pass is given belongs to a call that was read from the input.
pub fn calls_are_read()
    ensures call { (g : Geometry) (bytes : List ℕ) (nth : ℕ) (p : Placed) →
        IsValid g → call_in (limits_of g) bytes nth ≡ Some p → IsReadCall g p }
    ensures bytes { (g : Geometry) (bytes : List ℕ) (nth : ℕ) (p : Placed) →
        AreBytes bytes → call_in (limits_of g) bytes nth ≡ Some p → HasBytes p }
    ensures parsed { (g : Geometry) (bytes : List ℕ) (nth : ℕ) (p : Placed) →
        call_in (limits_of g) bytes nth ≡ Some p → parsed_call g bytes nth ≡ Some (parsed_of g p) }
    ensures from { (g : Geometry) (bytes : List ℕ) (nth : ℕ) (x : Parsed) →
        IsValid g → parsed_call g bytes nth ≡ Some x → ComesFrom g bytes nth x }
    ensures room { (g : Geometry) (bytes : List ℕ) (nth : ℕ) →
        IsValid g → length (parsed_words (parsed_call g bytes nth)) ≤ input_room g }
    ensures words { (g : Geometry) (p : Placed) → IsReadCall g p → length (input_words g p.call) ≡ input_room g }
{}

/// The calls of an input are numbered from 0 without gaps, and each is for a bucket of the
/// geometry. The table parses the input first.
pub fn calls_are_counted()
    ensures counted { (g : Geometry) (bytes : List ℕ) (nth count : ℕ) →
        count_of_calls g bytes ≡ Some count → nth < count → (p : Parsed) × (parsed_call g bytes nth ≡ Some p) }
    ensures found { (g : Geometry) (bytes : List ℕ) (nth : ℕ) (p : Parsed) →
        parsed_call g bytes nth ≡ Some p → (count : ℕ) × (count_of_calls g bytes ≡ Some count) × (nth < count) }
    ensures buckets { (g : Geometry) (bytes : List ℕ) (nth : ℕ) (p : Parsed) →
        IsValid g → parsed_call g bytes nth ≡ Some p → p.bucket < g.buckets }
    ensures parses { (g : Geometry) → slice_get (hands_table g) 0 ≡ Some Stmt.Parse }
{}

/// The commands that have a program are those of the calls of requests, by their numbers.
pub fn commands_have_programs()
    ensures { map (λ r. r.number) rows ≡ read_numbers }
{}

/// The number of words before a block, by which rooms are counted, is the index of the block.
pub fn blocks_stand_last()
    ensures { words_before_block ≡ block_index }
{}

/// If words of 64 bits stand for a bucket, its numbers are of 64 bits too.
pub fn words_are_bounded()
    ensures { (g : Geometry) (words : List ℕ) (b : Bucket) → All (λ w. w < 2 ^ 64) words → StandsFor g words b → Stands g words b }
{}

/// The handler of each valid geometry is sound. From words that stand for a bucket, each honest run
/// of its table, in the first pass and in the second, halts within its budget and its rooms. The
/// words then stand for the bucket after the call, and the output is the call's reply. Words change
/// in rising order of their addresses.
pub fn hands_are_sound()
    ensures { (g : Geometry) → IsValid g →
        IsSound (hands_behavior g) (space_for g) (Stands g) (Stands g)
        (λ input nth b now. answer (room_of g) b now (call_or_blank (call_in (limits_of g) input nth))) }
{}

/// The handler of each valid geometry is a sound handler for its model: it is sound, and its calls
/// are counted as above.
pub fn hands_are_a_sound_handler()
    ensures { (g : Geometry) → IsValid g →
        IsSoundHandler (hands_behavior g) (space_for g) g.buckets (Stands g) (Stands g) (answer_of g) }
{}
