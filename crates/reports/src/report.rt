// The listing of what a folder holds, or why there is none.
ghost use Rattle.std.specs.Prelude.{◌≡◌, length, Ok, Err, IfOk, MatchResult};
ghost use Rattle.std.specs.Option.{option_map};
ghost use Rattle.rows.specs.Sorts.{kept};
ghost use Rattle.layers.specs.Layers.{marks_of};
ghost use Rattle.manifests.specs.Manifests.{indexed};
ghost use Rattle.reports.specs.Reports.{Lists, layer_in, Refuses, Reports};

use crate::refusal::{Reason, refusal};
use base::Manifest;
use layer_fields::fault::LayerFault;
use layer_files::read::read;
use layers::layer::Layer;
use listing::list;
use manifests::fault::ManifestFault;
use manifests::index::{blank_row, index};
use manifests::reader::{MOST_BYTES, MOST_ROWS};
use rows::row::Row;
use sessions::session::{Sealed, Session};
use std::alloc::{AllocError, Global};
use trees::entry::Entry;
use trees::tree::Tree;

// The listing, or the one line of a refusal. Want of memory stands outside of it: it is no fault of any author,
// and a caller lets it pass by `?`.
pub type Report = Result<Vec<u8>, String>;

// The listing of a tree, in at most 65,536 bytes.
pub fn report_tree<T: Tree>(heap: Global, tree: &T) -> Result<Report, AllocError>
    ensures { IfOk result (λ o. Lists (T.Tree.entries tree.now).rows o) }
{
    let mut buffer = vec![in heap; 0; MOST_BYTES]?;
    match list(tree, buffer.as_mut_slice()) {
        Ok(len) => {
            buffer.truncate(len);
            Ok(Ok(buffer))
        }
        Err(fault) => Ok(Err(refusal(heap, "list", Reason::Tree(fault))?)),
    }
}

// The tree of a manifest's text, over rows that are lent for it.
fn manifest_tree<'a>(text: &[u8], rows: &'a mut [Row<Entry>]) -> Result<Manifest<'a>, ManifestFault>
    ensures { MatchResult result (λ m. indexed (length rows.old) text.now ≡ Ok (kept m.rows)) (λ f. indexed (length rows.old) text.now ≡ Err f) }
{
    let count = index(text, rows)?;
    Manifest::read(text, &rows[..count])
}

// The layer of a file; where there is none, one without rows.
fn top_layer(file: Option<&[u8]>) -> Result<Layer, LayerFault>
    ensures { MatchResult result (λ l. layer_in (option_map (λ t. t.now) file.entry) ≡ Ok (marks_of l)) (λ f. layer_in (option_map (λ t. t.now) file.entry) ≡ Err f) }
{
    let mut layer = Layer::new();
    if let Some(bytes) = file {
        read(bytes, &mut layer)?;
    }
    Ok(layer)
}

// The pile of a folder's files: the layer `top`, where there is one, on the manifest `base`.
fn pile<'a>(
    base: &[u8],
    top: Option<&[u8]>,
    rows: &'a mut [Row<Entry>],
) -> Result<Sealed<Manifest<'a>>, Reason>
    ensures { MatchResult result (λ s. (indexed (length rows.old) base.now ≡ Ok (kept s.session.lower.rows)) × (layer_in (option_map (λ t. t.now) top.entry) ≡ Ok (marks_of s.session.layer))) (λ r. Refuses (indexed (length rows.old) base.now) (layer_in (option_map (λ t. t.now) top.entry)) r) }
{
    let tree = manifest_tree(base, rows)?;
    let layer = top_layer(top)?;
    Ok(Session::lay(layer, tree).seal())
}

// The listing of what a folder holds.
pub fn report_pile(heap: Global, base: &[u8], top: Option<&[u8]>) -> Result<Report, AllocError>
    ensures { IfOk result (λ o. Reports base.now (option_map (λ t. t.now) top.entry) o) }
{
    let mut rows = vec![in heap; blank_row(); MOST_ROWS]?;
    match pile(base, top, rows.as_mut_slice()) {
        Ok(pile) => report_tree(heap, &pile),
        Err(reason) => Ok(Err(refusal(heap, reason.subject(), reason)?)),
    }
}
