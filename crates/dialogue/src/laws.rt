//! What holds of whoever drives code that asks: laws, each the contract of a function without a body.
ghost use Rattle.std.specs.Prelude.{◌≡◌, ◌++◌, Bool, List, []};
ghost use Rattle.dialogue.specs.Dialogue.{DialogueOf, ExchangeOf, IsDriven, Talks, Whole, and_then, answers_of, came, protocol, ran, without_signals};

/// Whoever makes the system call that is due by the answers so far, one after another, has one of the dialogue's
/// conversations; and what is due in the end is what it has come to. Once that is the dialogue's end, it is a whole
/// one.
pub fn driving_is_talking<Q, A, E>()
    ensures talks { (again : Q → A → Bool) (s : DialogueOf (protocol again) E)
        (es : List (ExchangeOf (protocol again))) → IsDriven s [] es
        → Talks s es (λ rest. ran rest [] ≡ ran s (answers_of es)) }
    ensures whole { (again : Q → A → Bool) (s : DialogueOf (protocol again) E)
        (es : List (ExchangeOf (protocol again))) (e : E) (left : List A) → IsDriven s [] es
        → ran s (answers_of es) ≡ came e left → Whole s es e }
{}

/// Of a dialogue of two parts: whoever is driven through the first one, to a value and with no answer left, may drop
/// all answers. What is left of the whole is the second part, for that value, wherever the first one began.
pub fn checkpoints_are_kept<Q, A, E, F>()
    ensures { (again : Q → A → Bool) (whole : DialogueOf (protocol again) F)
        (before : List (ExchangeOf (protocol again))) (part : DialogueOf (protocol again) E)
        (behind : E → DialogueOf (protocol again) F)
        (es : List (ExchangeOf (protocol again))) (value : E) → Talks whole before (λ rest. rest ≡ and_then part behind)
        → IsDriven part [] es → ran part (answers_of es) ≡ came value []
        → Talks whole (before ++ es) (λ rest. rest ≡ behind value) }
{}

/// A driver needn't keep answers that tell of a signal: what is due is the same without them.
pub fn signals_may_be_left_out<Q, A, E>()
    ensures { (again : Q → A → Bool) (s : DialogueOf (protocol again) E) (es : List (ExchangeOf (protocol again)))
        → IsDriven s [] es
        → ran s (answers_of (without_signals es)) ≡ ran s (answers_of es) }
{}
