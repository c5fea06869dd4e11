//! Laws of the lines of a script. These functions do nothing: their contracts are what they are for.
ghost use Rattle.vx_script.specs.Laws.{SaidLaw, ReadingLaw, TimedLaw, OneCommandLaw};

/// What is read of a line, however long it is, is what the table of lines says of it.
pub fn grammar()
    ensures { SaidLaw }
{}

/// So it is of a line that is no longer than it may; a longer one is outside the grammar.
pub fn within_limit()
    ensures { ReadingLaw }
{}

/// And so it is of a line of version 2.
pub fn timed_grammar()
    ensures { TimedLaw }
{}

/// A line writes one command at most.
pub fn one_command()
    ensures { OneCommandLaw }
{}
