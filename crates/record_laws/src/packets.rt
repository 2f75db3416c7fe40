//! Laws of packets.

ghost use Rattle.record_laws.specs.PacketLaws.{PacketsFit, PacketsLead, PacketsJoin};

/// Each record of a packet fits the slice that the records before it leave.
pub fn packets_fit()
    ensures { PacketsFit }
{}

/// A packet leads from the one slice to the other.
pub fn packets_lead()
    ensures { PacketsLead }
{}

/// The records of a packet are those to a slice between, and those on from there.
pub fn packets_join()
    ensures { PacketsJoin }
{}
