// The laws of layer files.
ghost use Rattle.layer_files.specs.Laws.{Lawful};

// They hold of every layer and of every byte string.
pub fn laws_stand()
    ensures { Lawful }
{}
