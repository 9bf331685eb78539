//! Laws of the definitions that the contracts cite. The calls do nothing: each promise is a law.
ghost use Rattle.std.specs.Prelude.{ℕ, ◌≡◌, ◌≤◌, ◌<◌, ◌+◌, List, All, length};
ghost use Rattle.std.specs.List.{AllPass};
ghost use Rattle.mr_inline.specs.Quoted.{quoted_line};
ghost use Rattle.mr_world_script.specs.Answers.{answer_text, is_printable, IsAnswer, printed};
ghost use Rattle.mr_inline.specs.Limits.{line_limit};
ghost use Rattle.mr_world_script.specs.Lines.{LineSays};
ghost use Rattle.mr_world_script.specs.Said.{Said, Says};
ghost use Rattle.mr_world_script.specs.declared.answer.ScriptAnswer.{ScriptAnswer};

/// A line says one thing.
pub fn lines_say_one_thing()
    ensures { (text : List ℕ) (one other : Said) → LineSays text one →
        LineSays text other → one ≡ other }
{}

/// What words say, their line in double quotes says too, if it isn't too long. So each event can be asked for, whichever bytes a
/// client is to send.
pub fn quoted_words_say()
    ensures { (words : List (List ℕ)) (said : Said) → Says words said →
        length (quoted_line words) ≤ line_limit + 1 → LineSays (quoted_line words) said }
{}

/// An answer is printable, so it has no line feed but the one at its end.
pub fn answers_are_printable()
    ensures { (answer : ScriptAnswer) → IsAnswer answer →
        AllPass is_printable (answer_text answer) }
{}

/// Printed bytes tell which they are: no two byte strings are printed alike.
pub fn printed_bytes_tell()
    ensures { (one other : List ℕ) → All (λ b. b < 256) one → All (λ b. b < 256) other →
        printed one ≡ printed other → one ≡ other }
{}
