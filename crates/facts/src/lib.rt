// Laws of numbers, lists, finite tests, tables, sums and checks are in specs/ and proofs/. Here stands what several crates compute.
#![tactic(auto)]

ghost use Rattle.std.specs.Prelude.{◌≡◌, ℕ, ◌<◌, [], ◌∷◌};
ghost use Rattle.facts.specs.Checks.{check, number_said, Says};

// Why a call refuses. The documents give each reason a number: none has 0, which says that nothing is refused, and no two have the same.
pub trait Numbered: Copy {
    ghost number: { Self → ℕ };

    // The documents' number of this reason.
    fn number(self) -> u64
        ensures { result ≡ number self };

    ghost above_zero: { (f : Self) → 0 < number f };

    ghost one_to_one: { (f g : Self) → number f ≡ number g → f ≡ g };
}

// The number that an answer says: 0 where nothing is refused.
pub fn number_said<E: Numbered>(answer: Result<(), E>) -> u64
    ensures { result ≡ number_said E.number answer }
{
    match answer {
        Ok(()) => 0,
        Err(f) => f.number(),
    }
}

// The refusal f where its condition holds.
pub fn refuse_if<E: Numbered>(holds: bool, f: E) -> Result<(), E>
    ensures { Says E.number result (check holds (E.number f) ∷ []) }
{
    if holds { Err(f) } else { Ok(()) }
}
