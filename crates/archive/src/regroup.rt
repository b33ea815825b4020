// Layers squashed to one, in any order of neighbours.
ghost use Rattle.std.specs.Prelude.{◌≡◌, ℕ, List, true, map, Ok, Err, IfOk, MatchResult, []};
ghost use Rattle.trees.specs.Entries.{Row, is_tree};
ghost use Rattle.marks.specs.Marks.{MarkRow, merged};
ghost use Rattle.layers.specs.Layers.{marks_of};
ghost use Rattle.layer_files.specs.Files.{encoded};
ghost use Rattle.archive.specs.Groups.{squash_of, squash_at, from_lowest, grouped, laid_all};

use layers::layer::Layer;
use layers::squash::squash;
use trees::fault::Fault;

// The squash of two layers.
pub(crate) fn squashed(upper: &Layer, lower: &Layer) -> Result<Layer, Fault>
    ensures { MatchResult result (λ l. squash_of (marks_of upper.now) (marks_of lower.now) ≡ Ok (marks_of l)) (λ f. squash_of (marks_of upper.now) (marks_of lower.now) ≡ Err f) }
{
    let mut both = Layer::new();
    squash(upper, lower, &mut both)?;
    Ok(both)
}

// Squashes the layer at a place with its upper neighbour, where there is one.
fn squash_at(layers: &mut Vec<Layer>, at: usize) -> Result<(), Fault>
    ensures { MatchResult result (λ _. squash_at at (map marks_of layers.old.items) ≡ Ok (map marks_of layers.new.items)) (λ f. squash_at at (map marks_of layers.old.items) ≡ Err f) }
{
    if at < layers.len().saturating_sub(1) {
        let upper = layers.remove(at + 1);
        layers[at] = squashed(&upper, &layers[at])?;
    }
    Ok(())
}

// Squashes layers to one, from the lowest up.
fn from_lowest(layers: Vec<Layer>) -> Result<Layer, Fault>
    ensures { MatchResult result (λ l. from_lowest [] (map marks_of layers.items) ≡ Ok (marks_of l)) (λ f. from_lowest [] (map marks_of layers.items) ≡ Err f) }
{
    let mut all = Layer::new();
    for layer in layers {
        all = squashed(&layer, &all)?;
    }
    Ok(all)
}

// Squashes layers to one: the lowest comes first. At each place of the order neighbours are squashed, and what is left then
// from the lowest up. It is refused where a squash would have more than 192 rows.
pub fn regroup(layers: Vec<Layer>, order: &[usize]) -> Result<Layer, Fault>
    ensures exact { MatchResult result (λ l. grouped order.now (map marks_of layers.items) ≡ Ok (marks_of l)) (λ f. grouped order.now (map marks_of layers.items) ≡ Err f) }
    ensures same { IfOk result (λ l. (other : List ℕ) (m : List MarkRow) → grouped other (map marks_of layers.items) ≡ Ok m → m ≡ marks_of l) }
    ensures same_file { IfOk result (λ l. (other : List ℕ) (m : List MarkRow) → grouped other (map marks_of layers.items) ≡ Ok m → encoded m ≡ encoded (marks_of l)) }
    ensures laid { IfOk result (λ l. (e : List Row) → is_tree e ≡ true → merged (marks_of l) e ≡ laid_all (map marks_of layers.items) e) }
{
    let mut layers = layers;
    for at in order {
        squash_at(&mut layers, *at)?;
    }
    from_lowest(layers)
}
