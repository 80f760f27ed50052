//! What the walk over a list keeps of the packets before.
ghost use Rattle.std.specs.Prelude.{◌≡◌, ◌≤◌, ◌+◌, length};
ghost use Rattle.field_words.specs.Sizes.{most_list};
ghost use Rattle.strict_lists.specs.Walk.{course_after};

use bin_list::draws;
use packets::opcode::START_TILE_BINNING;

/// Where the next packet begins, the opcode of the last one, whether binning was started, and how many primitives there were.
#[derive(Clone, Copy)]
pub struct Course {
    pub at: u32,
    pub last: u8,
    pub started: bool,
    pub primitives: u32,
}

/// What is kept behind this packet.
#[tactic(auto, unfolding(crate::specs::Walk::course_after))]
pub(crate) fn behind(course: Course, packet: &[u8]) -> Course
    requires some { 1 ≤ length packet.now }
    requires place { course.at + length packet.now ≤ most_list }
    requires near { course.primitives ≤ course.at }
    ensures value { result ≡ course_after course packet.now }
    ensures near { result.primitives ≤ result.at }
{
    Course {
        at: course.at + packet.len() as u32,
        last: packet[0],
        started: packet[0] == START_TILE_BINNING || course.started,
        primitives: course.primitives + u32::from(draws(packet)),
    }
}
