//! Laws of the texts of lines. These functions do nothing: their contracts are what they are for.
ghost use Rattle.vx_trace.specs.Laws.{OneTextLaw, OneEndLaw, OneText2Law, OneEnd2Law};

/// No two lines have one text.
pub fn one_text()
    ensures { OneTextLaw }
{}

/// A line's text ends with LF, and has no other.
pub fn one_end()
    ensures { OneEndLaw }
{}

/// No two lines of version 2 have one text, at whatever moments.
pub fn one_text2()
    ensures { OneText2Law }
{}

/// A version 2 text ends with LF, and has no other.
pub fn one_end2()
    ensures { OneEnd2Law }
{}
