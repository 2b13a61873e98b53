//! Laws of the definitions, each a clause of a function that does nothing.

ghost use Rattle.std.specs.Prelude.{◌≡◌, ℕ, ◌<◌, ◌==◌, List, [], ◌∷◌, ◌++◌, Some};
ghost use Rattle.std.specs.Option.{option_map};
ghost use Rattle.std.specs.Fmt.{decimal};
ghost use Rattle.mc_model.specs.Bucket.{Item};
ghost use Rattle.mc_model.specs.Replies.{value_text};
ghost use Rattle.mc_model.specs.Texts.{text_count, line, text_line};
ghost use Rattle.mc_render.specs.Outputs.{text_kind, number_kind, value_words, CanShow};
ghost use Rattle.mc_render.specs.Rendering.{rendered};

/// What each kind of output renders to, followed by what the words after it render to.
pub fn words_render_in_order()
    ensures none { (limit : ℕ) → rendered limit [] ≡ Some [] }
    ensures text { (limit n : ℕ) (ws : List ℕ) → n < text_count
        → rendered limit (text_kind ∷ n ∷ ws) ≡ option_map (λ bs. text_line n ++ bs) (rendered limit ws) }
    ensures number { (limit n : ℕ) (ws : List ℕ)
        → rendered limit (number_kind ∷ n ∷ ws) ≡ option_map (λ bs. line (decimal n) ++ bs) (rendered limit ws) }
    ensures value { (limit cas : ℕ) (key : List ℕ) (x : Item) (ws : List ℕ) → CanShow limit cas key x
        → rendered limit (value_words cas key x ws) ≡ option_map (λ bs. value_text (cas == 1) key x ++ bs) (rendered limit ws) }
{}
