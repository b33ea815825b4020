// What holds of every manifest.
ghost use Rattle.manifests.specs.Laws.{IndexMakesTree, IndexThenLoad, ListingReadsBack};

#[tactic(auto, using(crate::proofs::ReadBack::listing_reads_back))]
pub fn listing_reads_back()
    ensures { ListingReadsBack }
{}

#[tactic(auto, using(crate::proofs::Limits::index_then_load))]
pub fn index_then_load()
    ensures { IndexThenLoad }
{}

#[tactic(auto, using(crate::proofs::BuiltRows::index_makes_tree))]
pub fn index_makes_tree()
    ensures { IndexMakesTree }
{}
