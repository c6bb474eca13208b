//! Laws of scripts, which are about texts alone.

ghost use Rattle.script_reader.specs.Laws.{NumbersAreDecimal, OpeningsAreRead, CommandsAreRead, TextsAreRead, FaultsAreFirst, TextsAreDecided, TextsAreUnambiguous, CausesHold, PrefixesAreJudged};

/// A word is read as a number exactly where it is the number's decimal spelling.
pub fn numbers_are_decimal()
    ensures { NumbersAreDecimal }
{}

/// Words are read as an opening line or a command exactly where they are its words.
pub fn forms_are_read()
    ensures openings { OpeningsAreRead }
    ensures commands { CommandsAreRead }
{}

/// A text is read as a script exactly where it is the text of that script.
pub fn texts_are_read()
    ensures { TextsAreRead }
{}

/// A bad line is found exactly where it is the first line that no script has there.
pub fn faults_are_first()
    ensures { FaultsAreFirst }
{}

/// A text is that of a script or has a first bad line, and not both.
pub fn texts_are_decided()
    ensures { TextsAreDecided }
{}

/// A text is that of one script at most, and has one first bad line at most.
pub fn texts_are_unambiguous()
    ensures { TextsAreUnambiguous }
{}

/// A cause that is told of a line holds of it, in the words of the grammar.
pub fn causes_hold()
    ensures { CausesHold }
{}

/// A prefix of the text of a script is one itself where it is empty or ends with a line end, and every
/// other is bad at its last line, which is not ended.
pub fn prefixes_are_judged()
    ensures { PrefixesAreJudged }
{}
