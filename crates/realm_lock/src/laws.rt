//! What holds of marks that views accepted. The function does nothing: its contract is the law.
ghost use Rattle.realm_lock.specs.{AcceptedMarksAgree};

/// Two marks of one scope that views accepted (`Realm::view_with`) are equal, if the one token had seen by
/// then what the other had, and perhaps more: as one context's own views, or two tokens' of which one was
/// shown the other's list. A retirement between them leaves no view that accepts one.
pub fn accepted_marks_agree()
    ensures { AcceptedMarksAgree }
{}
