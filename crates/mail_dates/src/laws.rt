//! Laws of the definitions, each the contract of a function that does nothing.
ghost use Rattle.std.specs.Prelude.{◌≡◌, ◌↔◌, ℕ, ℤ, List, Some};
ghost use Rattle.mail_dates.specs.Zones.{numeric_of, IsOffset};
ghost use Rattle.mail_dates.specs.declared.date_time.DateTime.{DateTime};
ghost use Rattle.mail_dates.specs.DateTexts.{IsDateText};
ghost use Rattle.mail_dates.specs.DateTimes.{IsMoment, IsSameMoment};
ghost use Rattle.mail_dates.specs.Finding.{date_of};

/// A text reads as at most one date.
pub fn date_of_a_text()
    ensures { (text : List ℕ) (one two : DateTime) → IsDateText text one → IsDateText text two → one ≡ two }
{}

/// A script's zone is a sign, hours below 24 and minutes below 60, each in two digits.
pub fn zone_of_a_text()
    ensures { (text : List ℕ) (zone : ℤ) → (numeric_of text ≡ Some zone) ↔ IsOffset text zone }
{}

/// The date that `date_of` finds in a text is the one that it reads as.
pub fn date_found_in_a_text()
    ensures { (text : List ℕ) (date : DateTime) → (date_of text ≡ Some date) ↔ IsDateText text date }
{}

/// A moment has at most one date in a zone.
pub fn date_of_a_moment()
    ensures moment { (seconds : ℕ) (zone : ℤ) (one two : DateTime) → IsMoment seconds zone one → IsMoment seconds zone two → one ≡ two }
    ensures same { (date : DateTime) (zone : ℤ) (one two : DateTime) → IsSameMoment date zone one → IsSameMoment date zone two → one ≡ two }
{}
