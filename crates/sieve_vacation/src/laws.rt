//! Laws of the definitions, each the contract of a function that does nothing.
ghost use Rattle.std.specs.Prelude.{◌≡◌, ◌↔◌, ℕ, List};
ghost use Rattle.mail_address.specs.declared.address.Addr.{Addr};
ghost use Rattle.sieve_syntax.specs.declared.extension.vacation.VacationArgs.{VacationArgs};
ghost use Rattle.sieve_exec.specs.Mails.{MailSpec};
ghost use Rattle.sieve_vacation.specs.Dates.{IsUtcDateText};
ghost use Rattle.sieve_vacation.specs.Layout.{IsVacationReply};
ghost use Rattle.sieve_vacation.specs.Handles.{Handle, handle_key_of, HasShortTexts};

/// Two handles have the same key exactly if they are the same.
pub fn keys_of_handles()
    ensures { (one two : Handle) → HasShortTexts one → HasShortTexts two → (handle_key_of one ≡ handle_key_of two) ↔ (one ≡ two) }
{}

/// A moment has exactly one text.
pub fn reply_date_of_a_moment()
    ensures { (moment : ℕ) (one two : List ℕ) → IsUtcDateText moment one → IsUtcDateText moment two → one ≡ two }
{}

/// A response has exactly one text.
pub fn reply_to_a_mail()
    ensures { (args : VacationArgs) (mail : MailSpec) (own : Addr) (moment : ℕ) (one two : List ℕ)
        → IsVacationReply args mail own moment one → IsVacationReply args mail own moment two → one ≡ two }
{}
