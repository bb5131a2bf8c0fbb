//! Laws of the text. These functions do nothing: the contract of each is the law.

ghost use Rattle.fixed_script.specs.TextLaws.{OneHeader, OneLine, OneWholeNumber, PiecesJoin};
ghost use Rattle.fixed_script.specs.Lines.{ReadsHeaders, ReadsLines};

/// Two lines with the same text are equal, and so are two headers and two whole numbers. The pieces of a script, joined
/// in order, are the script.
pub fn text_law()
    ensures numbers { OneWholeNumber }
    ensures lines { OneLine }
    ensures headers { OneHeader }
    ensures pieces { PiecesJoin }
{}

/// The model reads bytes as a line, or as a header, exactly if they are its text.
pub fn reading_law()
    ensures lines { ReadsLines }
    ensures headers { ReadsHeaders }
{}
