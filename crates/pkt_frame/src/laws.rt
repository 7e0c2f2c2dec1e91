//! Laws of frames: what is written is read again.
ghost use Rattle.std.specs.Prelude.{◌≡◌, Some};
ghost use Rattle.pkt_core.specs.Packet.{Values};
ghost use Rattle.pkt_frame.specs.Read.{frame};
ghost use Rattle.pkt_frame.specs.Written.{IsTold, frame_bytes};

/// The frame that a packet is written as is read as that packet, where a frame tells all of it.
pub fn written_frames_are_read()
    ensures { (packet : Values) → IsTold packet → frame (frame_bytes packet) ≡ Some packet }
{}
