//! The strict check of a binner list.
ghost use Rattle.std.specs.Prelude.{◌≤◌, length};
ghost use Rattle.field_words.specs.Sizes.{most_list};
ghost use Rattle.field_words.specs.Questions.{GoesOn};
ghost use Rattle.strict_lists.specs.Rules.{list_questions};

use crate::course::{Course, behind};
use crate::rule::ListFault;
use crate::rules::broken;
use bin_list::split_front;

/// Asks the strict rules E9, E10 and E13 of a binner list, packet by packet up to its end or to a halt. A fault is the first rule
/// that is broken, by place and then by number; there is none if and only if no packet breaks one.
pub fn check_list(list: &[u8]) -> Result<(), ListFault>
    requires { length list.now ≤ most_list }
    ensures { GoesOn (list_questions list.now) (λ made. Unit {0}) result }
{
    let mut course = Course {
        at: 0,
        last: 0,
        started: false,
        primitives: 0,
    };
    let mut rest = list;
    while !rest.is_empty() {
        let (packet, later) = split_front(rest);
        if let Some(rule) = broken(&course, packet) {
            return Err(ListFault {
                rule,
                at: course.at,
            });
        }
        course = behind(course, packet);
        rest = later;
    }
    Ok(())
}
