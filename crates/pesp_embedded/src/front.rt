//! The caller's room for replies.

ghost use Rattle.std.specs.Prelude.{◌≡◌};
ghost use Rattle.pesp_embedded.specs.Answered.{fronted};

/// Writes the bytes to the front of the room, as many as fit. The rest of it is unchanged.
pub(crate) fn put_front(room: &mut [u8], bytes: &[u8])
    ensures { room.new ≡ fronted bytes.now room.old }
{
    if bytes.len() <= room.len() {
        room[..bytes.len()].copy_from_slice(bytes);
    } else {
        let most = room.len();
        room.copy_from_slice(&bytes[..most]);
    }
}
