//! Laws of the definitions, each the contract of a function that does nothing.
ghost use Rattle.lmtp_dialogue.specs.Dialogues.{ItemsStand};
ghost use Rattle.lmtp_dialogue.specs.Lines.{LinesStand};
ghost use Rattle.lmtp_dialogue.specs.Names.{FormsStand};
ghost use Rattle.lmtp_dialogue.specs.RecipientReplies.{RepliesAreLines};
ghost use Rattle.lmtp_dialogue.specs.Replies.{HostsFaultsPass};
ghost use Rattle.lmtp_dialogue.specs.Texts.{TextsAgree};
ghost use Rattle.lmtp_dialogue.specs.Turns.{AnswersStand};

/// A text by its lines and a text octet by octet are the same: where it ends, and what it is.
pub fn texts_agree()
    ensures { TextsAgree }
{}

/// What comes first in a stream of command lines is one, and stays the same whatever octets follow.
pub fn lines_stand()
    ensures { LinesStand }
{}

/// For a fault of this host a client is told to try again: no message is bounced for it.
pub fn hosts_faults_pass()
    ensures { HostsFaultsPass }
{}

/// What comes first in a dialogue is one item, and stays so whatever octets follow; it doesn't matter in which pieces they come.
pub fn items_stand()
    ensures { ItemsStand }
{}

/// A line has one answer, and what is answered stays so whatever octets follow.
pub fn answers_stand()
    ensures { AnswersStand }
{}

/// Each reply but that to LHLO is one line of at most 512 octets, all of them printable, whatever a text of its own has.
pub fn replies_are_lines()
    ensures { RepliesAreLines }
{}

/// An address has one local part. Each form of a name is the name as it is, in lower case, without the detail, or both, and none
/// is there twice.
pub fn forms_stand()
    ensures { FormsStand }
{}
