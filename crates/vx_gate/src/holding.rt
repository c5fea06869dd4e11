//! The steps of one turn, on the table's seat.
ghost use Rattle.std.specs.Prelude.{◌≡◌, ◌≢◌, ℕ, ◌^◌, ◌<◌, ◌≤◌, List, [], ◌∷◌};
ghost use Rattle.atomic_table.specs.Seated.{TableId};
ghost use Rattle.vx_gate.specs.declared.views.Stage.TheVariants.{Idle, Drawn, Turn, Counted, Spent};
ghost use Rattle.vx_gate.specs.History.{made, groups};
ghost use Rattle.vx_gate.specs.Steps.{at_stage, fresh, parted, with_group, Took, Learned};
ghost use Rattle.vx_gate.specs.Turning.{MayRun};
ghost use Rattle.vx_gate.specs.Places.{IsTable, IsSame, Ran};

use crate::acts::{Act, Kept};
use crate::plays::{Count, Draw, Learn, Leave, Look, Marks, OneHistory, Part, Serve, Standing};
use crate::views::View;
use crate::waiting;
use atomic_table::{Seat, Shared};
use std::marker::Brand;
use std::snapshot::Snapshot;
use std::sync::Wait;

pub(crate) type Room<K> = Shared<K, View<<K as Kept>::Group>, Snapshot<K>, OneHistory>;

pub(crate) type Place<K> = Seat<K, View<<K as Kept>::Group>>;

// Words of the table.
pub(crate) const WORDS: usize = 64;

// Indexes of those that steps change, 128 bytes apart, so that they share no cache line.
pub(crate) const TICKET: usize = 0;

pub(crate) const SERVING: usize = 16;

pub(crate) const COUNT: usize = 32;

// The one that is slept on outside the line. No step changes it.
pub(crate) const OUTSIDE: usize = 48;

// Tickets do not wrap: from this one on a turn waits for ever.
const LAST: u64 = 1 << 62;

pub(crate) fn draw<K: Kept>(room: &Room<K>, place: &mut Place<K>) -> u64
    requires table { IsTable room.now.table_id × (place.old.table_id ≡ room.now.table_id) }
    requires idle { place.old.me.0.stage ≡ Idle }
    ensures same { IsSame place.old place.new }
    ensures drawn { place.new.me ≡ (at_stage (Drawn result) place.old.me.0, place.old.me.1) }
{
    room.fetch_add::<Draw>(place, TICKET, 1)
}

// The ticket that is served. Where it is this one, the slot is taken with the look.
fn look<K: Kept, B: Marks<K::Group> + Standing<K, K::Group>>(
    room: &Room<K>,
    place: &mut Place<K>,
    ticket: u64,
) -> u64
    requires table { IsTable room.now.table_id × (place.old.table_id ≡ room.now.table_id) }
    requires number { B.number ≡ place.old.id }
    requires stands { (kept : K) (log : List K.Group) → K.stands room.now.key.value kept log → B.stands kept log }
    requires drawn { (place.old.me.0.stage ≡ Drawn ticket) × (place.old.me.1 ≡ []) }
    ensures same { IsSame place.old place.new }
    ensures early { result ≡ ticket → ticket < 2 ^ 62 }
    ensures took { result ≡ ticket → Took B.stands K.may_add place.old.id ticket place.old.me place.new.me }
    ensures waits { result ≢ ticket → place.new.me ≡ place.old.me }
{
    if ticket >= LAST {
        return 0;
    }
    room.load::<Look<B>>(place, SERVING)
}

// Waits until the ticket is served, and takes the slot.
pub(crate) fn take<K: Kept, B: Marks<K::Group> + Standing<K, K::Group>, R: Wait>(
    rt: &R,
    room: &Room<K>,
    place: &mut Place<K>,
    ticket: u64,
)
    requires table { IsTable room.now.table_id × (place.old.table_id ≡ room.now.table_id) }
    requires number { B.number ≡ place.old.id }
    requires stands { (kept : K) (log : List K.Group) → K.stands room.now.key.value kept log → B.stands kept log }
    requires drawn { (place.old.me.0.stage ≡ Drawn ticket) × (place.old.me.1 ≡ []) }
    ensures same { IsSame place.old place.new }
    ensures early { ticket < 2 ^ 62 }
    ensures took { Took B.stands K.may_add place.old.id ticket place.old.me place.new.me }
{
    let mut looks = 0;
    for _ in rt.forever() {
        let served = look::<K, B>(room, place, ticket);
        if served == ticket {
            return;
        }
        looks = waiting::pause(rt, room, served, looks);
    }
    unreachable!()
}

// Counts the group that `B` names. The call at `Brand` picks it from the other arguments: it is the one of the run
// that took the act and the slot's value from what they were before to what they are.
fn count<K: Kept, A: Act<K>, B: Marks<K::Group>>(
    room: &Room<K>,
    place: &mut Place<K>,
    ticket: u64,
    _act_before: &Snapshot<A>,
    _kept_before: &Snapshot<K>,
    _act: &A,
    _answer: &A::Answer,
)
    requires table { IsTable room.now.table_id × (place.old.table_id ≡ room.now.table_id) }
    requires number { B.number ≡ place.old.id }
    requires turn { place.old.me.0.stage ≡ Turn ticket }
    requires group { (g : K.Group) × B.adds g × K.may_add place.old.me.0.own g }
    ensures same { IsSame place.old place.new }
    ensures counted { (g : K.Group) × B.adds g × (place.new.me ≡ (with_group place.old.id ticket g place.old.me.0, place.old.me.1)) }
{
    room.fetch_add::<Count<B>>(place, COUNT, 1);
}

// Runs the act on the slot's value, and counts the group that it adds.
pub(crate) fn run_and_count<K: Kept, A: Act<K>>(
    room: &Room<K>,
    place: &mut Place<K>,
    ticket: u64,
    act: &mut A,
) -> A::Answer
    requires table { IsTable room.now.table_id × (place.old.table_id ≡ room.now.table_id) }
    requires turn { place.old.me.0.stage ≡ Turn ticket }
    requires slot { (kept : K) × (place.old.me.1 ≡ (0, kept) ∷ []) × K.stands room.now.key.value kept (groups place.old.me.0.seen) × MayRun K.may_add A.asks A.does A.adds place.old.me.0.own act.old kept }
    ensures same { IsSame place.old place.new }
    ensures ran { Ran (K.stands room.now.key.value) A.does A.adds place.old.id ticket place.old.me act.old result act.new place.new.me }
{
    let act_before = Snapshot::of(&*act);
    let kept = place.slot_mut(room, 0);
    let kept_before = Snapshot::of(&*kept);
    let answer = act.run(kept);
    count::<K, A, Brand>(
        room,
        place,
        ticket,
        &act_before,
        &kept_before,
        &*act,
        &answer,
    );
    answer
}

// Ends the turn, and wakes whoever sleeps and may be next.
pub(crate) fn serve<K: Kept>(room: &Room<K>, place: &mut Place<K>, ticket: u64)
    requires table { IsTable room.now.table_id × (place.old.table_id ≡ room.now.table_id) }
    requires counted { (place.old.me.0.stage ≡ Counted ticket) × (ticket < 2 ^ 62) }
    requires stands { (kept : K) × (place.old.me.1 ≡ (0, kept) ∷ []) × K.stands room.now.key.value kept (groups place.old.me.0.seen) }
    ensures same { IsSame place.old place.new }
    ensures idle { place.new.me ≡ (at_stage Idle place.old.me.0, []) }
{
    room.fetch_add::<Serve>(place, SERVING, 1);
    waiting::wake(room, ticket + 1);
}

// A look that changes nothing, and tells what the rule knows of the pass.
pub(crate) fn learn<K: Kept, B: Marks<K::Group>>(room: &Room<K>, place: &mut Place<K>)
    requires table { IsTable room.now.table_id × (place.old.table_id ≡ room.now.table_id) }
    requires number { B.number ≡ place.old.id }
    requires idle { place.old.me.0.stage ≡ Idle }
    ensures same { IsSame place.old place.new }
    ensures learned { Learned K.may_add place.old.id place.old.me place.new.me }
{
    room.load::<Learn<B>>(place, TICKET);
}

// Makes a seat with one part of this one's, which has seen the same and made nothing.
pub(crate) fn split<K: Kept, B: Marks<K::Group>>(room: &Room<K>, place: &mut Place<K>) -> Place<K>
    requires table { IsTable room.now.table_id × (place.old.table_id ≡ room.now.table_id) }
    requires number { B.number ≡ place.old.id }
    requires parts { (place.old.me.0.stage ≡ Idle) × (2 ≤ place.old.me.0.parts) }
    ensures same { IsSame place.old place.new × (place.new.me ≡ (parted place.old.me.0, place.old.me.1)) }
    ensures fresh { (result.table_id ≡ place.old.table_id) × (result.me ≡ (fresh place.old.id 1 place.old.me.0.seen, [])) }
{
    room.split_seat::<Part<B>>(place)
}

// Makes a seat with all parts of this one's, which then ends.
pub(crate) fn leave<K: Kept, B: Marks<K::Group>>(room: &Room<K>, place: &mut Place<K>) -> Place<K>
    requires table { IsTable room.now.table_id × (place.old.table_id ≡ room.now.table_id) }
    requires number { B.number ≡ place.old.id }
    requires idle { place.old.me.0.stage ≡ Idle }
    ensures same { IsSame place.old place.new × (place.new.me ≡ (at_stage Spent place.old.me.0, place.old.me.1)) }
    ensures fresh { (result.table_id ≡ place.old.table_id) × (result.me ≡ (fresh place.old.id place.old.me.0.parts place.old.me.0.seen, [])) }
{
    room.split_seat::<Leave<B>>(place)
}
