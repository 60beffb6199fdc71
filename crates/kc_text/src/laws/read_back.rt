//! Printed text is read back as itself. The functions do nothing: each has a law as its contract.
ghost use Rattle.kc_text.specs.ReadBack.{WordsAreReadBack, NumbersAreReadBack, LinesAreReadBack};

/// Words printed with one blank between them are the words of the line.
pub fn words_are_read_back()
    ensures { WordsAreReadBack }
{}

/// The printed digits of a `u32` are read as that number.
pub fn numbers_are_read_back()
    ensures { NumbersAreReadBack }
{}

/// A text of lines of words is read as these lines, each with its number, followed by the lines of the rest.
pub fn lines_are_read_back()
    ensures { LinesAreReadBack }
{}
