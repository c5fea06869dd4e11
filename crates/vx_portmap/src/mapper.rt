//! The port mapper as what serves the peers of a door.
ghost use Rattle.std.specs.Prelude.{◌≡◌};

use crate::ends::MapEnd;
use crate::limits::MESSAGE_MAX;
use crate::streams::map_stream;
use crate::table::Ports;
use std::marker::Model;
use vx_door::Door;
use vx_peers::PeerServer;
use vx_record::RecordBuf;

/// A table, and the room of the record that comes in.
#[derive(Drop)]
pub(crate) struct Mapper {
    ports: Ports,
    incoming: RecordBuf,
}

impl Model for Mapper {
    ghost use Rattle.std.specs.Prelude.{◌≡◌, List};
    ghost use Rattle.vx_portmap.specs.declared.table.Mapping.{Mapping};
    ghost use Rattle.vx_portmap.specs.declared.limits.TheConstants.{MESSAGE_MAX};

    ghost Value = { List Mapping };

    ghost view = { λ m. m.ports };

    ghost invariant = { λ m. m.incoming.limit ≡ MESSAGE_MAX };
}

impl Mapper {
    ghost use Rattle.vx_record.specs.Buffer.{fresh};
    ghost use Rattle.vx_portmap.specs.declared.limits.TheConstants.{MESSAGE_MAX};

    /// A mapper of this table, with room for one record.
    pub(crate) fn new(ports: Ports, incoming: RecordBuf) -> Mapper
        requires { incoming ≡ fresh MESSAGE_MAX }
        ensures { result ≡ ports }
    {
        Mapper { ports, incoming }
    }
}

impl<N: Door> PeerServer<N> for Mapper {
    ghost use Rattle.std.specs.Prelude.{◌≡◌, ◌≤◌, ◌⊎◌, ⊤, true, false};
    ghost use Rattle.vx_io_traits.specs.Faults.{Rose};
    ghost use Rattle.vx_peers.specs.Serving.{is_cut};
    ghost use Rattle.vx_portmap.specs.Mapped.{StreamMapped, is_own, is_whole};

    type End = MapEnd;

    ghost can = { λ _ _. ⊤ };

    ghost did = { λ ports door how ports' door'. StreamMapped N.Link ports door how ports' door' };

    ghost is_own = { is_own };

    ghost is_whole = { is_whole };

    ghost is_stopped = { λ _. false };

    /// Answers the records of the peer's stream.
    fn serve(self, _behind: u32, door: &mut N) -> (Mapper, MapEnd)
        ensures did { StreamMapped N.Link self door.old result.1 result.0 door.new }
        ensures receives { N.receive_faults door.old ≤ N.receive_faults door.new }
        ensures sends { N.send_faults door.old ≤ N.send_faults door.new }
        ensures cut { is_cut (is_own result.1) (is_whole result.1) (N.left door.old) (N.left door.new) ≡ true
            → Rose (N.receive_faults door.old) (N.receive_faults door.new) ⊎ Rose (N.send_faults door.old) (N.send_faults door.new) }
    {
        let mut mapper = self;
        mapper.incoming.restart();
        let how = map_stream(&mapper.ports, door, &mut mapper.incoming);
        (mapper, how)
    }

    /// It serves as many as come.
    fn is_stopped(&self) -> bool {
        false
    }
}
