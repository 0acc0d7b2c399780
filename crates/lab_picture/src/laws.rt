ghost use Rattle.std.specs.Prelude.{◌≡◌, ℕ, List, true};
ghost use Rattle.script_story.specs.Evaluation.{RunEnvironment};
ghost use Rattle.lab_picture.specs.Laws.{IsMarkup, is_character_data};
ghost use Rattle.lab_picture.specs.Pictures.{draw_of};
ghost use Rattle.lab_picture.specs.Svg.{escaped};

/// Escaped text has no markup: no `<`, `>` or `"`, and each `&` in it begins the name of a character.
pub fn escaped_text_has_no_markup()
    ensures { (text : List ℕ) → is_character_data (escaped text) ≡ true }
{}

/// The picture of an input is elements with escaped text in them: each tag that opens is closed.
pub fn pictures_are_markup()
    ensures { (env : RunEnvironment) → (input : List ℕ) → IsMarkup (draw_of env input).text }
{}
