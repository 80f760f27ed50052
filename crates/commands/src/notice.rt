//! What a person reads on standard error where the program has no answer.
ghost use Rattle.std.specs.Prelude.{◌≡◌, Some, None, IfSome, IfNone};
ghost use Rattle.commands.specs.Notice.{notice_of};

/// The line that says what a status means, where no more is known: that words can't be read for 2, and what happened for 3 to 6. None goes with an answer, that is with 0
/// and 1. It takes no memory.
pub fn notice_of(status: u8) -> Option<&'static str>
    ensures said { IfSome result (λ notice. notice_of status ≡ Some notice.now) }
    ensures quiet { IfNone result (notice_of status ≡ None) }
{
    match status {
        2 => Some("vc4check: a word is no text, which is UTF-8"),
        3 => Some("vc4check: reading the input failed"),
        4 => Some("vc4check: writing the answer failed"),
        5 => Some("vc4check: memory ran out"),
        6 => Some("vc4check: the input is longer than the command takes"),
        _ => None,
    }
}
