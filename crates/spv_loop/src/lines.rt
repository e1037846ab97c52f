//! What the lines of an input are.
ghost use Rattle.std.specs.Prelude.{◌≡◌, ◌==◌, ◌++◌, false, List, ℕ};
ghost use Rattle.std.specs.List.{list_any, AllByRecursion};
ghost use Rattle.spv_loop.specs.Lines.{complete_lines, rest_of, ended};

/// The complete lines, each with its LF, and the rest are the bytes, and no LF stands in a line or in the rest.
pub fn lines_are_right()
    ensures whole { (bytes : List ℕ) → ended (complete_lines bytes) ++ rest_of bytes ≡ bytes }
    ensures lines { (bytes : List ℕ) → AllByRecursion (λ line. list_any (λ b. b == 10) line ≡ false) (complete_lines bytes) }
    ensures rest { (bytes : List ℕ) → list_any (λ b. b == 10) (rest_of bytes) ≡ false }
{}
