ghost use Rattle.fr_trace.specs.Bare.{TextsTellNoCounts};
ghost use Rattle.fr_trace.specs.ReadBack.{TextsAreReadBack};

/// A law: the text of a trace that fits the parameters of its cluster is accepted as a file of them, and stands for that
/// trace and for no other, whoever joins and whichever nodes are arbitrary, also where all are.
pub fn texts_are_read_back()
    ensures { TextsAreReadBack }
{}

/// A law: the text of a trace tells neither what the records of its cycles count nor how many terms were cut.
pub fn texts_tell_no_counts()
    ensures { TextsTellNoCounts }
{}
