//! A law of the definitions, the clauses of a function that does nothing.

ghost use Rattle.std.specs.Prelude.{List};
ghost use Rattle.jh_queue.specs.Queue.{EachFinds, EachTakes, IsFirstWithout, Passage};
ghost use Rattle.jh_queue.specs.Queue.{completed_before, completed_upto};

/// Each dequeue finds an enqueue by the counts exactly where each can take one of its own: of its
/// value, invoked before it completes, and no two the same one. Where a first dequeue finds none, those
/// before it can each take one, and those up to it, with it, cannot.
pub fn each_takes_its_own()
    ensures takes { (ins outs : List Passage) → EachFinds ins outs → EachTakes ins outs }
    ensures finds { (ins outs : List Passage) → EachTakes ins outs → EachFinds ins outs }
    ensures earlier { (ins outs : List Passage) (out : Passage) → IsFirstWithout ins outs out
        → EachTakes ins (completed_before out.place outs) }
    ensures first { (ins outs : List Passage) (out : Passage) → IsFirstWithout ins outs out
        → EachTakes ins (completed_upto out.place outs) → ⊥ }
{}
