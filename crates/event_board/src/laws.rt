//! Laws of answers.

ghost use Rattle.event_board.specs.Laws.{AnswersAreOne, OpeningsDontCount};

/// Two answers to one question over one history are the same, unless it asks for a support.
pub fn answers_are_one()
    ensures { AnswersAreOne }
{}

/// What a change is answered rests on the changes before it, and not on the values at the opening.
pub fn openings_dont_count()
    ensures { OpeningsDontCount }
{}
