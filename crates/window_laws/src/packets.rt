//! Laws of packets of a window.

ghost use Rattle.window_laws.specs.WindowPacketLaws.{WindowPacketsFit, WindowPacketsLead, WindowPacketsJoin};

/// Each record of a packet fits the window that the records before it leave.
pub fn window_packets_fit()
    ensures { WindowPacketsFit }
{}

/// A packet leads from the window of the one slice to that of the other.
pub fn window_packets_lead()
    ensures { WindowPacketsLead }
{}

/// The records of a packet are those to a slice between, and those on from there.
pub fn window_packets_join()
    ensures { WindowPacketsJoin }
{}
