// The laws of scripts.
ghost use Rattle.scripts.specs.Laws.{Lawful};

// They hold of all calls that a script can ask for, and of every text.
pub fn laws_stand()
    ensures { Lawful }
{}
