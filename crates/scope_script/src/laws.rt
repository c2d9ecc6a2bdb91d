//! The law of retirement over scripts. The function does nothing: its contract is the law.

ghost use Rattle.scope_script.specs.{RepliesStay, ReplyTextStays};

/// A retirement changes no reply but its own. If a list of commands without its retirements meets no
/// limit, and no command behind an accepted retirement names a number that was discarded, the replies and
/// their lines are the same with the retirements, their own replies aside.
pub fn retired()
    ensures replies { RepliesStay }
    ensures text { ReplyTextStays }
{}
