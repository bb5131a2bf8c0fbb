//! Laws of the agreement. These functions do nothing: the contract of each is the law.

ghost use Rattle.fixed_agree.specs.AgreementLaws.{AnswersTheProjection, NoCauseExactly};

/// For each sign and width, the machine's only answer to a line is the policy's projection of the row of the line's
/// operands. So the machine and the typed calls have the same projection of the same row.
pub fn machine_law()
    ensures { AnswersTheProjection }
{}

/// The machine finds no cause in a row exactly if the precondition of the policy's typed calls holds. That of checked
/// always holds. For the other policies the row must be defined, and for strict its number must also fit.
pub fn condition_law()
    ensures { NoCauseExactly }
{}
