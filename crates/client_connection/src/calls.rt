ghost use Rattle.std.specs.Prelude.{◌≡◌, ◌<◌, ◌≤◌, take, length, Some};
ghost use Rattle.std.specs.Bool.{OnTrue, OnFalse};
ghost use Rattle.link_ports.specs.Told.{IfTold, KeepsTold, ChangesTold};
ghost use Rattle.link_ports.specs.Traffic.{with_received, with_sent};
ghost use Rattle.client_connection.specs.Reading.{IsTrouble};

use desk_ports::Failed;
use link_ports::Link;

/// Sends a frame, and says whether it went out. It may wait.
pub fn send_frame<L: Link>(link: &mut L, frame: &[u8]) -> bool
    ensures sent { OnTrue result (ChangesTold (L.traffic link.old) (with_sent frame.now) (L.traffic link.new)) }
    ensures unsent { OnFalse result (KeepsTold (L.traffic link.old) (L.traffic link.new)) }
    ensures trouble { OnFalse result (IsTrouble (L.marks link.new) (L.faults link.new)) }
    ensures ends { (L.marks link.new).ends ≡ (L.marks link.old).ends }
{
    match link.send(frame) {
        Ok(()) => true,
        Err(Failed) => false,
    }
}

/// Takes bytes from the link, as many as there are and no more than the room has places, and says how many: none where
/// a call of the link failed or its input has ended. It may wait.
pub fn receive_some<L: Link>(link: &mut L, room: &mut [u8]) -> usize
    requires { 0 < length room.old }
    ensures within { result ≤ length room.new }
    ensures size { length room.new ≡ length room.old }
    ensures received { IfTold (L.traffic link.old)
        (λ before. L.traffic link.new ≡ Some (with_received (take result room.new) before)) }
    ensures trouble { result ≡ 0 → IsTrouble (L.marks link.new) (L.faults link.new) }
    ensures ends { (L.marks link.new).ends ≡ (L.marks link.old).ends }
{
    match link.receive(room) {
        Ok(count) => count,
        Err(Failed) => 0,
    }
}
