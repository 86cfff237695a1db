//! What holds of every text and its division.
ghost use Rattle.std.specs.Prelude.{◌≡◌, ◌↔◌, ◌⊎◌, ◌≤◌, List, ℕ, length};
ghost use Rattle.std.specs.List.{AllByRecursion};
ghost use Rattle.ease_base.specs.declared.place.Pos.{Pos as Place};
ghost use Rattle.op_table.specs.Reserved.{IsReserved};
ghost use Rattle.task_tokens.specs.declared.token.Keyword.{Keyword as Word};
ghost use Rattle.task_tokens.specs.declared.token.Lexeme.{Lexeme as Form};
ghost use Rattle.task_tokens.specs.Spelling.{letters};
ghost use Rattle.task_tokens.specs.Division.{Piece, Divides, BreaksAt, start, tokens_of};
ghost use Rattle.task_tokens.specs.Fair.{IsFair};
ghost use Rattle.task_tokens.specs.Once.{DividesOnce};
ghost use Rattle.task_tokens.specs.Spaced.{IsPrintable, DividesSo};

/// A text divides into tokens in at most one way, or breaks off at one place, and never both.
pub fn one_division()
    ensures { DividesOnce }
{}

/// Each text divides or breaks off.
pub fn divides_or_breaks()
    ensures { (text : List ℕ) → ((ps : List Piece) × Divides text ps) ⊎ ((at : Place) × BreaksAt text at) }
{}

/// The tokens of a text have name tokens as names and words as numbers, and there are no more of them than bytes.
pub fn tokens_are_fair()
    ensures fair { (text : List ℕ) (ps : List Piece) → Divides text ps → AllByRecursion IsFair (tokens_of start ps) }
    ensures few { (text : List ℕ) (ps : List Piece) → Divides text ps → length (tokens_of start ps) ≤ length text }
{}

/// Tokens with a space between any two divide into those tokens.
pub fn spaced_tokens_divide()
    ensures { (xs : List Form) → AllByRecursion IsPrintable xs → DividesSo xs }
{}

/// The words that are no names are those of the table of reserved words.
pub fn reserved_words_are_keywords()
    ensures { (word : List ℕ) → IsReserved word ↔ ((k : Word) × (word ≡ letters k)) }
{}
