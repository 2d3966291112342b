//! Laws of certificates, of the verdicts on them and of whole checks: functions with an empty body, whose contracts state them.
ghost use Rattle.std.specs.Prelude.{◌≡◌, ◌≤◌, ◌++◌, ◌∷◌, [], ℕ, List, length, true, IsSomeAnd};
ghost use Rattle.cox_tokens.specs.Line.{line_feed};
ghost use Rattle.cox_outside.specs.declared.limits.TheConstants.{INPUT_LIMIT};
ghost use Rattle.cox_outside.specs.Supply.{Supply};
ghost use Rattle.cox_outside.specs.Outlet.{Outlet};
ghost use Rattle.cox_certtext.specs.Certificate.{Certificate, IsCertificate, Gives, certificate_text, contents};
ghost use Rattle.cox_cert.specs.Causes.{HasTop, HasInterval, HasSmall, HasRow, IsFirstCause, IsProof};
ghost use Rattle.cox_cert.specs.Checks.{IsCheck};
ghost use Rattle.cox_cert.specs.Unhindered.{Rose, IsUnhindered};

use crate::status::{Cause, CheckStatus};

/// Lines are those of one certificate at most. A certificate that states the row of its element is accepted, as it is written. Each text
/// has at most one verdict.
pub fn certificates()
    ensures one { (lines : List (List ℕ)) (c d : Certificate) → Gives lines c → Gives lines d → c ≡ d }
    ensures accepted { (c : Certificate) → IsCertificate c → HasTop c → HasInterval c → HasSmall c → HasRow c
        → IsProof (contents (certificate_text c ++ line_feed ∷ [])) }
    ensures one_verdict { (lines : List (List ℕ)) → IsProof lines → (cause : Cause) → ¬ IsFirstCause cause lines }
    ensures one_cause { (lines : List (List ℕ)) (a b : Cause) → IsFirstCause a lines → IsFirstCause b lines → a ≡ b }
{}

/// Where no words follow the program's name, and without faults, a text within the limit gets a verdict, unless memory runs out.
pub fn complete()
    ensures { (status : CheckStatus) (source left : Supply) (old new : Outlet) → IsCheck status [] source left old new
        → ¬ Rose source.faults left.faults → ¬ Rose old.faults new.faults
        → IsSomeAnd source.left (λ text. length text ≤ INPUT_LIMIT) → IsUnhindered status }
{}

/// Statuses that `==` tells to be equal are the same, and causes too.
pub fn statuses()
    ensures statuses { (a b : CheckStatus) → ⟦<CheckStatus as PartialEq>⟧.eq a b ≡ true → a ≡ b }
    ensures causes { (a b : Cause) → ⟦<Cause as PartialEq>⟧.eq a b ≡ true → a ≡ b }
{}
