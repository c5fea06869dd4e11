ghost use Rattle.std.specs.Prelude.{◌≡◌, ℕ, List, ◌++◌, ◌↔◌, Some};
ghost use Rattle.vx_xdr.specs.Spelling.{AreBytes};
ghost use Rattle.vx_calls.specs.declared.calls.Proc.{Proc};
ghost use Rattle.vx_calls.specs.Call.{Call};
ghost use Rattle.vx_calls.specs.Reply.{Reply};
ghost use Rattle.vx_codec.specs.Row.{AreWhole, Contents, FieldKind, SpellsRow};
ghost use Rattle.vx_codec.specs.Asked.{Asks, CallFits, arguments, asked, proc_of};
ghost use Rattle.vx_codec.specs.Answered.{Answers, Outcome, ReplyFits, answered, form_of, reply_form, reply_outcome, results};

/// A structure has one spelling, where none of its fields keeps less than its word.
pub fn one_spelling()
    ensures { (row : List FieldKind) (values : Contents row) (a b : List ℕ) → AreWhole row → SpellsRow row values a → SpellsRow row values b → a ≡ b }
{}

/// No spelling of a structure begins another of that structure: where two of them stand in front of one list, they
/// are the same, and so are the values and what follows.
pub fn no_prefix()
    ensures { (row : List FieldKind) (v w : Contents row) (a b x y : List ℕ) → SpellsRow row v a → SpellsRow row w b → a ++ x ≡ b ++ y → (a ≡ b) × (v ≡ w) × (x ≡ y) }
{}

/// What is read as a call is what the bytes spell, and the other way round.
pub fn asked_is_spelled()
    ensures { (proc : Proc) (call : Call) (bytes : List ℕ) → AreBytes bytes → (asked proc bytes ≡ Some call) ↔ Asks proc call bytes }
{}

/// The arguments that are written for a call are read as that call.
pub fn asked_again()
    ensures { (call : Call) → CallFits call → asked (proc_of call) (arguments call) ≡ Some call }
{}

/// What is read as results is what the bytes spell, and the other way round.
pub fn answered_is_spelled()
    ensures { (proc : Proc) (outcome : Outcome) (bytes : List ℕ) → AreBytes bytes → (answered proc bytes ≡ Some outcome) ↔ Answers (form_of proc) outcome bytes }
{}

/// The results that are written for a reply are read as that reply, by each procedure that answers its structure.
pub fn answered_again()
    ensures { (proc : Proc) (reply : Reply) → form_of proc ≡ reply_form reply → ReplyFits reply → answered proc (results reply) ≡ Some (reply_outcome reply) }
{}
