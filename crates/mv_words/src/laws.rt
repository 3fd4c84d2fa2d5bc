//! Laws over the definitions alone, of the words of the command line.
#![tactic(auto, using(std::proofs::lemmas::Bool::Decides::nat_tests), unfolding(clap::proofs::OnLiterals::clap_on_literals))]

ghost use Rattle.std.specs.Prelude.{[], ◌∷◌, codes};
ghost use Rattle.mv_words.specs.Words.{ExplainAsks, MinusIsMistaken, OptionAsks, WordsAsk};
ghost use Rattle.mv_words.specs.declared.task.Task.TheVariants.{Canon, Check, Show, Steps, Strict, Trail};

/// Whatever the program's name is, each of these words asks for what it names: `mvhub steps` and `mvhub canon`, without and with
/// their option, `mvhub trail` and `mvhub show`.
pub fn commands_named()
    ensures steps { WordsAsk Steps (codes "steps" ∷ []) }
    ensures strict { WordsAsk Strict (codes "steps" ∷ codes "--strict" ∷ []) }
    ensures trail { WordsAsk Trail (codes "trail" ∷ []) }
    ensures show { WordsAsk Show (codes "show" ∷ []) }
    ensures canon { WordsAsk Canon (codes "canon" ∷ []) }
    ensures check { WordsAsk Check (codes "canon" ∷ codes "--check" ∷ []) }
{}

/// The words `mvhub work --turns N` and `mvhub work --turns=N` ask for `work` with the number that N writes.
pub fn work_named()
    ensures { OptionAsks }
{}

/// The words `mvhub explain CODE..`, of which none begins with a minus, ask for `explain` with these codes.
pub fn explain_named()
    ensures { ExplainAsks }
{}

/// A number of turns with a minus before it, as `--turns -0` or `--turns=-0`, is mistaken.
pub fn minus_is_mistaken()
    ensures { MinusIsMistaken }
{}
