// The laws of calls made one after the other.
ghost use Rattle.archive.specs.Kit.{Worked};
ghost use Rattle.archive.specs.Laws.{Lawful};

pub fn laws_stand()
    ensures { Lawful }
{}

// Worked examples of the definitions: a small tree, and one session over it.
pub fn examples_stand()
    ensures { Worked }
{}
