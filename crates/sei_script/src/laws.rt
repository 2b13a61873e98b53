//! Laws of scripts, each the clause of a function that does nothing.

ghost use Rattle.std.specs.Prelude.{◌≡◌, ◌<◌, ◌^◌, ℕ, List};
ghost use Rattle.std.specs.Fmt.{decimal};
ghost use Rattle.std.specs.Str.Lines.{strip_carriage_return};
ghost use Rattle.sei_script.specs.Context.{context_of};
ghost use Rattle.sei_script.specs.Faults.{once};
ghost use Rattle.sei_script.specs.Says.{line_says};
ghost use Rattle.sei_script.specs.Spelling.{numeral, SpellsLine};
ghost use Rattle.sei_script.specs.Causes.{IsSaidOnce};
ghost use Rattle.sei_script.specs.Reading.{Reads, Fails, reading_of};
ghost use Rattle.sei_script.specs.Reads.{ReadsText, FailsText};
ghost use Rattle.sei_script.specs.declared.line.Why.{Why};
ghost use Rattle.sei_script.specs.declared.line.ScriptLine.{ScriptLine};
ghost use Rattle.sei_script.specs.declared.line.Said.{Said};

/// What the reader makes of a line, after the lines before it, is what its spelling and its place say:
/// a line is read exactly if it is spelled and well placed, and each cause is told exactly where it stands.
pub fn lines_are_read_as_spelled()
    ensures told { (script : List ScriptLine) (line : List ℕ) (said : Said)
        → IsSaidOnce script (strip_carriage_return line) said → once script (line_says (context_of script) line) ≡ said }
    ensures only { (script : List ScriptLine) (line : List ℕ) (said : Said)
        → once script (line_says (context_of script) line) ≡ said → IsSaidOnce script (strip_carriage_return line) said }
{}

/// What the reader makes of a text is what is said apart from it: it reads as a script, or fails at its
/// first line that does not read, with the cause of that line.
pub fn scripts_are_read_as_spelled()
    ensures read { (limit : ℕ) (bytes : List ℕ) (script : List ScriptLine)
        → ReadsText limit bytes script → reading_of limit bytes ≡ Reads script }
    ensures read_only { (limit : ℕ) (bytes : List ℕ) (script : List ScriptLine)
        → reading_of limit bytes ≡ Reads script → ReadsText limit bytes script }
    ensures failed { (limit : ℕ) (bytes : List ℕ) (number : ℕ) (why : Why)
        → FailsText limit bytes number why → reading_of limit bytes ≡ Fails number why }
    ensures failed_only { (limit : ℕ) (bytes : List ℕ) (number : ℕ) (why : Why)
        → reading_of limit bytes ≡ Fails number why → FailsText limit bytes number why }
{}

/// A text spells one line at most.
pub fn a_text_spells_one_line()
    ensures { (text : List ℕ) (one other : ScriptLine) → SpellsLine text one → SpellsLine text other → one ≡ other }
{}

/// A number of 64 bits is spelled as a report writes it.
pub fn numbers_are_decimal()
    ensures { (n : ℕ) → n < 2 ^ 64 → numeral n ≡ decimal n }
{}
