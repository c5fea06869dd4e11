//! What a gate keeps, and what a turn does to it.
ghost use Rattle.std.specs.Prelude.{List, [], ◌∷◌, ◌++◌};

/// A value that a gate can keep. Contracts know its groups, which are plain data, by two relations alone.
pub trait Kept {
    /// What one turn adds to the history. No value of it is made.
    type Group;

    // The first value, which the gate was started over, became the second by this list of groups, which are those of the whole
    // history, in order.
    ghost stands: { Self → Self → List Self.Group → Type 0 };

    // A pass whose own groups are this list may add this group.
    ghost may_add: { List Self.Group → Self.Group → Type 0 };
}

/// What one turn does to the value. It adds one group to the history, which may be an empty one.
pub trait Act<K: Kept> {
    /// What the caller of the turn is told.
    type Answer;

    // The act, as it is, may be run on this value.
    ghost asks: { Self → K → Type 0 };

    // A run takes the act and the value to those, with this answer between them.
    ghost does: { Self → K → Self.Answer → Self → K → Type 0 };

    // The group that such a run adds.
    ghost adds: { Self → K → Self.Answer → Self → K → K.Group };

    /// Runs the act. Whatever first value and list of groups led to the value, the same and the group then lead to what it is.
    fn run(&mut self, kept: &mut K) -> Self::Answer
        requires { asks self.old kept.old }
        ensures does { does self.old kept.old result self.new kept.new }
        ensures stands { (first : K) (log : List K.Group) → K.stands first kept.old log → K.stands first kept.new (log ++ adds self.old kept.old result self.new kept.new ∷ []) };
}
