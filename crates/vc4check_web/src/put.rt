//! Texts in rooms of the page's.
ghost use Rattle.std.specs.Prelude.{◌≡◌, ◌≤◌, ◌++◌, length, drop};
ghost use Rattle.vc4check_web.specs.Call.{cut_to, IsPut};

/// As much of a text as there is room for.
#[tactic(auto, unfolding(crate::specs::Call::cut_to))]
fn cut(text: &[u8], room: usize) -> &[u8]
    ensures value { result.now ≡ cut_to room text.now }
    ensures fits { length result.now ≤ room }
{
    if text.len() <= room {
        text
    } else {
        &text[..room]
    }
}

/// Writes a text to the room's start.
fn copy(text: &[u8], room: &mut [u8])
    requires { length text.now ≤ length room.old }
    ensures { room.new ≡ text.now ++ drop (length text.now) room.old }
{
    room[..text.len()].copy_from_slice(text);
}

/// Writes as much of a text as there is room for to the room's start, and says how many bytes all of it has.
pub(crate) fn put(text: &[u8], room: &mut [u8]) -> usize
    ensures { IsPut room.old room.new result text.now }
{
    copy(cut(text, room.len()), room);
    text.len()
}
