// What the definition of the answers settles.
ghost use Rattle.std.specs.Prelude.{◌≡◌, ◌<◌, ◌^◌, ℕ, List, length};
ghost use Rattle.der_tool.specs.Answers.{AreAnswers};
ghost use Rattle.der_tool.specs.declared.answers.Reading.{Reading};

use simple_asn1::{law_one_reading, law_strict};

/// A law. Each input that a slice can hold has an output that answers it, and no other: where any document is accepted,
/// and where those alone are that are in canonical form.
pub fn law_one_output()
    ensures some { (reading : Reading) (input : List ℕ) → length input < 2 ^ 64
        → (output : List ℕ) × AreAnswers reading input output }
    ensures one { (reading : Reading) (input a b : List ℕ) → length input < 2 ^ 64
        → AreAnswers reading input a → AreAnswers reading input b → a ≡ b }
{
    law_one_reading();
    law_strict();
}
