//! Laws of what is dumped.
ghost use Rattle.sf_accept.specs.Dumps.{DumpIsRead, DumpedAgain};

/// What was dumped is a text of the same network, where it is not too long for a text. What is dumped of it is that network
/// and those bytes again.
pub fn dumped_text_is_read()
    ensures read { DumpIsRead }
    ensures again { DumpedAgain }
{}
