//! Laws of the definitions here and of the histories that turns at a gate make of groups of events. These functions do nothing:
//! their contracts are what they are for, and a caller that cites a law calls its function.
ghost use Rattle.std.specs.Prelude.{ℕ, []};
ghost use Rattle.vx_flow.specs.InterleavedState.{first_interleaved};
ghost use Rattle.vx_group.specs.Groups.{StandsFor};
ghost use Rattle.vx_group.specs.Laws.{StandsOnLaw, PhaseLaw, LinksLaw, FewLinksLaw, OwnedLaw, ClaimsOfGroupsLaw, SoundLaw};

/// A gateway as it starts, whatever the port of its abort channel, stands for the history without a group.
pub fn first_law()
    ensures { (abort_port : ℕ) → StandsFor (first_interleaved abort_port) [] }
{}

/// A state that stands for a history goes on with it: behind events that are allowed it stands for the history and the group
/// of these events.
pub fn stands_law()
    ensures { StandsOnLaw }
{}

/// What the groups that a pass made tell of a connection (that it is up, in which role, with which call, and whether a dial
/// was asked for) is so in every state that stands for the history.
pub fn phase_law()
    ensures { PhaseLaw }
{}

/// The links that a connection made and didn't destroy, as the groups tell that its pass made, are exactly those that every state has
/// of it which stands for the history: at most 1,024, each with a number up to 2^30 - 1.
pub fn links_law()
    ensures links { LinksLaw }
    ensures few { FewLinksLaw }
{}

/// The calls of a connection and their answers are made by one pass alone: by the one that has it come up.
pub fn owned_law()
    ensures { OwnedLaw }
{}

/// The claims on running threads: of every history for which a state stands, all holds that is claimed of interleaved
/// events; and of the state, what holds between events.
pub fn claims_law()
    ensures claims { ClaimsOfGroupsLaw }
    ensures sound { SoundLaw }
{}
