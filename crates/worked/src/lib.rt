#![tactic(auto)]

ghost use Rattle.std.specs.Prelude.{◌≡◌};
ghost use Rattle.worked.specs.Worked.{WorkedExamples, sizes};

// The limit and the registers of pile 5 with one station, and of pile 6 with sixteen. The contract has all worked examples
// of docs/RULES.md as one set of theorems, about the definitions that the contracts use.
pub fn worked_examples() -> [u16; 4]
    ensures sizes { result ≡ sizes }
    ensures worked { WorkedExamples }
{
    let _ = tables::examples();
    let _ = conciliators::examples();
    let _ = quorum::examples();
    [25, 20, 55, 46]
}
