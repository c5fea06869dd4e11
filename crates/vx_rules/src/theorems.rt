//! What holds of every history, as contracts of functions that do nothing: a caller that cites a law calls its function.
ghost use Rattle.vx_rules.specs.Laws.{OneReplyLaw, OneAbortLaw, OneTakeLaw, LinkNumbersLaw, LocksApartLaw, EnablesLaw, FrontsLegalLaw, ArrivalsLaw};
ghost use Rattle.vx_rules.specs.Numbers.{NumbersRiseLaw, LinkGivenLaw, ConnectionGivenLaw, ChannelGivenLaw, LinksGivenOnceLaw, ConnectionsGivenOnceLaw, ChannelsGivenOnceLaw};
ghost use Rattle.vx_rules.specs.PassLaws.{PassedLets, LetsPass, PassedSettles};
ghost use Rattle.vx_rules.specs.LinkLaws.{NoneLeft, OneGoes, OwnFound, OwnRemoved, OwnTaken};
ghost use Rattle.vx_rules.specs.LockLaws.{GrantedBlocks, FreedOpens, HasRoom};
ghost use Rattle.vx_rules.specs.SrqLaws.{RiseQueues, RiseInOrder, SteadyQueuesNothing, SameLevelSame, ChannelBelow, NextIsNew, TakenHere, TakenElsewhere, ClosedHere, ClosedElsewhere, KeepsConnections, AddedRises, GoneRises};

/// In one state, with the same from outside, a call, a device_abort and a take have at most one answer each, and one state
/// behind it.
pub fn one_reply()
    ensures reply { OneReplyLaw }
    ensures abort { OneAbortLaw }
    ensures take { OneTakeLaw }
{}

/// The numbers of live links rise, and the next one is above them all, so that a link that is made has a number of its own.
pub fn link_numbers()
    ensures { LinkNumbersLaw }
{}

/// The enables of service requests stand in order of their links' numbers, so that no link has two, and each is of a live link
/// of its connection. So a rise of SRQ queues one interrupt for each enabled link, in order of the links' numbers.
pub fn enables_law()
    ensures { EnablesLaw }
{}

/// A front of a history of the gateway of one thread is one too, so that what is claimed of a state at every front of a history
/// is claimed of a state that is there.
pub fn fronts_legal()
    ensures { FrontsLegalLaw }
{}

/// No number of a link, a connection or an interrupt channel is given twice in a history: each that is given is the one that
/// comes next and is used up by it, no entry lowers the one that comes next, and so those that are given rise.
pub fn numbers_given_once()
    ensures next { NumbersRiseLaw }
    ensures link { LinkGivenLaw }
    ensures connection { ConnectionGivenLaw }
    ensures channel { ChannelGivenLaw }
    ensures links { LinksGivenOnceLaw }
    ensures connections { ConnectionsGivenOnceLaw }
    ensures channels { ChannelsGivenOnceLaw }
{}

/// No link holds two locks, and no two locks are on conflicting targets.
pub fn locks_apart()
    ensures { LocksApartLaw }
{}

/// The arrivals are exactly the connections that have a call without an answer, each once, and along them the moments at
/// which the calls came don't fall.
pub fn arrivals_law()
    ensures { ArrivalsLaw }
{}

/// A call that the first lines let pass at some moment has neither a check nor a lock against it, and such a call that isn't
/// marked passes at every moment; a create_intr_chan that passes at its settling may be settled.
pub fn passed_calls()
    ensures passed { PassedLets }
    ensures lets { LetsPass }
    ensures settles { PassedSettles }
{}

/// A number names one link: to look for a connection's link of a number is to look for the number and to ask whether the
/// link is this connection's; and where it is, the table without the number is the table without that link.
pub fn own_link()
    ensures found { OwnFound }
    ensures removed { OwnRemoved }
{}

/// A connection's links may go one by one: each that goes makes the table one link shorter and leaves what the table is
/// without the connection; and where `of_connection` finds none any more, the table is that.
pub fn links_go()
    ensures taken { OwnTaken }
    ensures one { OneGoes }
    ensures none { NoneLeft }
{}

/// A lock that is granted keeps every other link off a conflicting target, until it goes: then only the others block.
pub fn granted_law()
    ensures granted { GrantedBlocks }
    ensures freed { FreedOpens }
{}

/// Where each lock is held by one of some links, and one of them holds none, there are fewer locks than links.
pub fn room_law()
    ensures { HasRoom }
{}

/// At a rise each channel queues exactly the handles of its connection's enabled links, in order of the links' numbers,
/// or is closed where its outbox would go above 1,024. Every other sample queues nothing.
pub fn rise_law()
    ensures queues { RiseQueues }
    ensures order { RiseInOrder }
    ensures steady { SteadyQueuesNothing }
    ensures same { SameLevelSame }
{}

/// The number of the next channel is no living channel's.
pub fn numbers_law()
    ensures below { ChannelBelow }
    ensures fresh { NextIsNew }
{}

/// A take and a close concern the channel of their own connection alone.
pub fn channel_law()
    ensures taken { TakenHere }
    ensures taken_elsewhere { TakenElsewhere }
    ensures closed { ClosedHere }
    ensures closed_elsewhere { ClosedElsewhere }
{}

/// Which connections there are, and in which order: only those that are added and go change it, and where they are added
/// in order of their numbers they rise.
pub fn connections_law()
    ensures kept { KeepsConnections }
    ensures added { AddedRises }
    ensures gone { GoneRises }
{}
