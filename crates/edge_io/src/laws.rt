ghost use Rattle.std.specs.Prelude.{◌≡◌, ℕ, List, [], Some, IfSome};
ghost use Rattle.edge_io.specs.Moving.{Input, IsEnded, Takes};

/// What was taken up to the end of a source is all that was to come, where it told that, and nothing is left.
pub fn ends_take_all()
    ensures { (before now : Input) (bytes : List ℕ) → Takes before now bytes → IsEnded now
        → IfSome before.left (λ all. (bytes ≡ all) × (now.left ≡ Some [])) }
{}
