//! What holds of every two replies, as contracts of functions that do nothing: a caller that cites a law calls its
//! function.

ghost use Rattle.vx_calls.specs.Reply.{SameReplyIs, SameReplyRefl};

/// Two replies that pass the test of being the same are one.
pub fn same_reply_is()
    ensures { SameReplyIs }
{}

/// Each reply is the same as itself.
pub fn same_reply_refl()
    ensures { SameReplyRefl }
{}
