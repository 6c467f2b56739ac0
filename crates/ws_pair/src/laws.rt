//! Laws over the definitions, each the contract of a function that does nothing: proofs of the layers above call them.

ghost use Rattle.std.specs.Prelude.{◌≡◌, List};
ghost use Rattle.ws_pair.specs.declared.moves.Move.{Move};
ghost use Rattle.ws_pair.specs.declared.report.Answer.{Answer};
ghost use Rattle.ws_pair.specs.Link.{Link, BothLimits};
ghost use Rattle.ws_pair.specs.Moves.{Plays};

/// The same moves are answered in one way, and lead to one link.
pub fn one_play()
    ensures { (limits : BothLimits) (link : Link) (moves : List Move) (answers others : List Answer)
        (after after_others : Link) → Plays limits link moves answers after →
        Plays limits link moves others after_others → (answers ≡ others) × (after ≡ after_others) }
{}
