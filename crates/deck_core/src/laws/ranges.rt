//! What the program of a hart needs, which sees phases and answers alone. None of these functions does anything.
ghost use Rattle.deck_core.specs.laws.Ranges.{AnswersGoOn, LooksGoOn, ShutGoesOn, GateGoesOn, CanGoOnNow};

/// What a phase keeps stays in range over the call of a phase, whatever the bus answers.
pub fn answers_go_on()
    ensures { AnswersGoOn }
{}

/// It stays in range over a look.
pub fn looks_go_on()
    ensures { LooksGoOn }
{}

/// It is in range after the shutting of the gate.
pub fn shut_goes_on()
    ensures { ShutGoesOn }
{}

/// It stays in range over a load of the gate's number.
pub fn gate_goes_on()
    ensures { GateGoesOn }
{}

/// What is in range is what `after_answer` asks for.
pub fn can_go_on_now()
    ensures { CanGoOnNow }
{}
