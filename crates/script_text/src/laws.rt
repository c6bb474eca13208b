//! Laws of what is written, which are about texts alone.

ghost use Rattle.script_text.specs.Laws.{WrittenTextsAreTexts};

/// What is written for a script is a text of it.
pub fn written_texts_are_texts()
    ensures { WrittenTextsAreTexts }
{}
