//! Laws of interleaved events. These functions do nothing: their contracts are what they are for, and a caller that cites
//! a law calls its function.
ghost use Rattle.vx_flow.specs.Ways.{RefusedLaw, WaitsLaw, NoRoleLaw, EffectLaw, DialLaw, FinishedLaw, BrokenLaw, TimeoutLaw, HeldLaw, SlicedLaw, BegunLaw, BeginsLaw};
ghost use Rattle.vx_flow.specs.Laws.{LinearizationLaw, HeardLaw, HeardOnInterfaceLaw, EntriesFreeLaw, MovesFreelyLaw, ClosedLaw, QueuedLaw, FirstSoundLaw, StaysSoundLaw, LaterSoundLaw, CallStaysLaw, TurnFreeLaw, EarlierLaw};
ghost use Rattle.vx_flow.specs.Claims.{ClaimsLaw};
ghost use Rattle.vx_flow.specs.Does.{DoesLaw};
ghost use Rattle.vx_flow.specs.Frames.{FrameLaw};

/// Which events are allowed, and where each leads: exactly what `Does` says, of an answer line by line of the order of answers.
pub fn does_law()
    ensures { DoesLaw }
{}

/// What each event may change of the state, and what stays: the moment never falls; roles, calls, links, locks and service
/// requests stay, but for those of the connection that the event is of, and for marks.
pub fn frame_law()
    ensures { FrameLaw }
{}

/// Interleaved events linearize to a history of the gateway of one thread, which ends in their state before the turn under
/// way, at their moment or an earlier one.
pub fn linearization_law()
    ensures { LinearizationLaw }
{}

/// Of a write that is answered without an error the bytes are heard, in order and with END as asked: by the device alone
/// to which the link is, or by each listener where the link is to the interface. Every other address hears nothing.
pub fn heard_law()
    ensures device { HeardLaw }
    ensures interface { HeardOnInterfaceLaw }
{}

/// No address that a call's transfers reach is kept by a lock of another link: at each answer and each end of a
/// connection in a history of the gateway of one thread, and at each move of a turn between interleaved events.
pub fn reached_law()
    ensures entries { EntriesFreeLaw }
    ensures moves { MovesFreelyLaw }
{}

/// What a client hears of the SRQ line. A rise closes exactly the interrupt channels whose outbox would have more than
/// 1,024 entries, and queues nothing for them. For a channel that lives behind a history, the interrupts that were taken from
/// it and then its outbox are, in order, the handles that rises queued while it lived, each once, with xids 1, 2, 3 and so on,
/// modulo 2^32 (VXI-11, device_intr_srq). A front of a history is one too (`vx_rules::fronts_legal`), so this is of a channel
/// that is gone at the end too, at each moment at which it lived.
pub fn interrupt_law()
    ensures closed { ClosedLaw }
    ensures queued { QueuedLaw }
{}

/// All that is claimed of interleaved events, of every list of them that are allowed, each at its place. They linearize to a
/// history of the gateway of one thread. While a turn is under way no other link's lock keeps its call's link off its target, and
/// no earlier waiter is passed over: where that link holds no lock, no call that came before is a waiter on a conflicting target. No
/// move of a turn, and no answer or end of a connection in that history, reaches an address that another link's lock keeps. Of
/// each write that is answered without an error the bytes are heard by the device to which the link is and by nobody else, or by
/// each listener where it is to the interface. Each rise of SRQ closes exactly the interrupt channels whose outbox would have more
/// than 1,024 entries. At each front of the history, a channel that lives there has had and has in its outbox exactly the handles
/// that rises queued, in order, whether it lives at the end or not; and the enables that rises go by stand in order of their
/// links' numbers, each of a live link of its connection.
pub fn claims_law()
    ensures { ClaimsLaw }
{}

/// What holds between events of the turn under way and of the calls that have come: at the start, behind each event that is
/// allowed, and at a later moment. An event that leaves the turn leaves its call and the call's job.
pub fn sound_law()
    ensures first { FirstSoundLaw }
    ensures stays { StaysSoundLaw }
    ensures later { LaterSoundLaw }
    ensures call { CallStaysLaw }
{}

/// What holds of the turn under way from its beginning on, where it has made no transfer yet too: no lock of another link keeps
/// its call's link off its target; no earlier waiter is passed over, which is that, where the link holds no lock, no call that
/// came before the turn's stands in line for what conflicts with its target; and no live link is to a device at the address (0 to
/// 30) that the gateway had as the turn began. Where the turn's list isn't whole the gateway has this address still.
pub fn turn_free_law()
    ensures { TurnFreeLaw }
{}

/// Events that are allowed at a later moment are allowed at an earlier one, and lead to the same state, but for its moment.
pub fn earlier_law()
    ensures { EarlierLaw }
{}

/// The ways in which a poll ends, line by line of the order of answers, each with the state that it leads to: a refusal, a
/// lock or a turn that the call waits for, a bus that the gateway has no role on, an effect, a dial; and where the call's own
/// turn goes on, or begins: it is whole, the bus fails, or holds, with its time passed or not, or the slice is full.
pub fn poll_ways()
    ensures refused { RefusedLaw }
    ensures waits { WaitsLaw }
    ensures no_role { NoRoleLaw }
    ensures effect { EffectLaw }
    ensures dial { DialLaw }
    ensures finished { FinishedLaw }
    ensures broken { BrokenLaw }
    ensures timeout { TimeoutLaw }
    ensures held { HeldLaw }
    ensures sliced { SlicedLaw }
    ensures begun { BegunLaw }
    ensures begins { BeginsLaw }
{}
