//! What holds of names, paths and texts as they are written.
ghost use Rattle.event_log.specs.EscapeLaws.{EscapedIsPrinted, EscapedTellsApart};

/// Whatever its bytes are, a name, a path or a text is written without a blank and without a newline, so that it is
/// one word of one line; and two that differ are written differently.
pub fn names_are_told_apart()
    ensures printed { EscapedIsPrinted }
    ensures apart { EscapedTellsApart }
{}
