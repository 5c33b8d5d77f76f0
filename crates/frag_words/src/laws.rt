ghost use Rattle.frag_words.specs.Joined.{WordsOfLines};
ghost use Rattle.frag_words.specs.Readings.{ExactHasOneTree, PairIsExact};

/// The words of the text of lines are the words of the lines, where no word goes on from one piece of
/// a line to the next.
pub fn lines_law()
    ensures { WordsOfLines }
{}

/// What exact productions have in common.
pub fn readings_law<A, B>()
    ensures one { ExactHasOneTree A }
    ensures pair { PairIsExact A B }
{}
