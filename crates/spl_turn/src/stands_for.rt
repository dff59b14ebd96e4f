ghost use Rattle.std.specs.Prelude.{◌≡◌, List, [], ◌∷◌, ◌++◌};
ghost use Rattle.spl_turn.specs.Meaning.{Meaning, MayStep};

/// A value that stands for a record of the steps that were made on it.
pub trait StandsFor: Drop {
    type Step;

    type Reply;
    /// An entry of the record. It exists in proofs alone.
    type Entry;
    /// The part of the value that no step changes. It exists in proofs alone.
    type Fixed;

    ghost means: { Meaning Self Self.Step Self.Reply Self.Entry Self.Fixed };

    /// Makes one step for an actor.
    fn step(&mut self, actor: u32, step: Self::Step) -> Self::Reply
        requires { (past : List Self.Entry) × MayStep means self.old actor step past }
        ensures stands { (past : List Self.Entry) → MayStep means self.old actor step past → means.stands self.new (past ++ means.entry self.old actor step result self.new ∷ []) }
        ensures fixed { means.fixed self.new ≡ means.fixed self.old };
}
