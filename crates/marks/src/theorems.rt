// The laws of marks.
ghost use Rattle.std.specs.Prelude.{◌≡◌, true, List};
ghost use Rattle.trees.specs.Entries.{Row, is_tree};
ghost use Rattle.marks.specs.Marks.{MarkRow, layered};
ghost use Rattle.marks.specs.Laws.{Lawful, SquashLaws};

// They hold of every layer over every tree.
pub fn laws_stand()
    ensures { (m : List MarkRow) (e : List Row) (layer : layered m ≡ true) (tree : is_tree e ≡ true) → Lawful m e layer tree }
{}

// Those of a squash hold of any two layers.
pub fn squash_laws_stand()
    ensures { (u l : List MarkRow) (upper : layered u ≡ true) (lower : layered l ≡ true) → SquashLaws u l upper lower }
{}
