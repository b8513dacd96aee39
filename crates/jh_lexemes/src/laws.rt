//! What holds of the lexemes of every text.

ghost use Rattle.jh_lexemes.specs.Laws.{LexemesAreWhole};

/// The lexemes of a text, put together, are the text.
pub fn lexemes_are_whole()
    ensures { LexemesAreWhole }
{}
