//! Laws of transcripts.

ghost use Rattle.pesp_shell_replies.specs.Transcripts.{AreAfresh, OneReply};

/// A transcript continues after any of its lines as one of the instance that their edits leave.
pub fn transcripts_are_afresh()
    ensures { AreAfresh }
{}

/// A line other than `try` has one reply, and leaves one work.
pub fn one_reply()
    ensures { OneReply }
{}
