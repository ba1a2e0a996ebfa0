//! Laws of the definitions, each the contract of a function that does nothing.
ghost use Rattle.smtp_dialogue.specs.Dialogues.{SpeaksRight};
ghost use Rattle.smtp_dialogue.specs.Mailboxes.{MailboxStands};
ghost use Rattle.smtp_dialogue.specs.Sent.{SentStands};

/// What is sent of a message is one, whatever octets it has. What the other side takes off it are the message's lines, each with CRLF:
/// so none ends it early, and none goes on with a field that didn't before.
pub fn sent_stands()
    ensures { SentStands }
{}

/// A message is sent only if all of it was written, and its last reply, that to its text, is 250. However its dialogue ends, what was
/// written is a prefix of the lines of its own sender, recipient and text.
pub fn speaks_right()
    ensures { SpeaksRight }
{}

/// A mailbox has no CR, LF or NUL, nor another control. So the line of MAIL or RCPT that has it is one line.
pub fn mailbox_stands()
    ensures { MailboxStands }
{}
