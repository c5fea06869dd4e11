//! Laws of what is sent to the box. Their functions do nothing: their contracts are what they are for, and a caller that cites a law
//! calls it.
ghost use Rattle.vx_upstream.specs.Sending.{words_of};
ghost use Rattle.vx_upstream.specs.Spelling.{CallsSpellLaw};
ghost use Rattle.vx_upstream.specs.Restoring.{RestoringLaw};

use vx_io_traits::Reach;

/// The calls that were sent along a path of the bus spell exactly its transfers, in order, each once: a command, a line, an
/// interface clear and an own address where the box answered error 0, of a write so many bytes as the box told that it took, and
/// of a read those that it brought. So the wire is what those transfers mean, and each address heard what they say, if the box
/// did what it answered.
///
/// Of an ask while the bus was away there is no call. The calls of a try to bring it back are told apart from those of asks: they
/// send no data byte, and spell nothing, or the interface clear for which the try was made. So no byte was sent twice.
pub fn calls_law<L: Reach>()
    ensures { CallsSpellLaw (words_of L.Link L.refused L.tries) }
{}

/// The orders that a try sends bring the box's bus to what the near one means, whatever it meant before: so a bus whose try was
/// answered with error 0 throughout is the near one again, in each part of its wire, if the box did what it answered.
pub fn restoring_law()
    ensures { RestoringLaw }
{}
