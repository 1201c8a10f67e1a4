//! What holds of texts and values.

ghost use Rattle.std.specs.Prelude.{◌≡◌, List};
ghost use Rattle.stimulus.specs.Written.{stimulus_data, tape_data};
ghost use Rattle.stimulus.specs.declared.texts.Member.{Member};
ghost use Rattle.stimulus.specs.declared.texts.StreamText.{StreamText};

/// A JSON value is that of one stimulus at most. This is a law, which takes no time.
pub fn texts_are_one()
    ensures { (a b : List StreamText) → stimulus_data a ≡ stimulus_data b → a ≡ b }
{}

/// A JSON value is that of one tape's cycles at most. This is a law, which takes no time.
pub fn cycles_are_one()
    ensures { (a b : List (List Member)) → tape_data a ≡ tape_data b → a ≡ b }
{}
