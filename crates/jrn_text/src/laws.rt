ghost use Rattle.jrn_text.specs.Laws.{TextsMeanOneThing};

/// A law of journals: a text is one journal at most, and has one first faulty line at most, and none where it is a journal.
pub fn texts_mean_one_thing()
    ensures { TextsMeanOneThing }
{}
