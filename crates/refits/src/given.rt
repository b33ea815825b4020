// What a refit is given: a manifest, layer files and a script.
ghost use Rattle.std.specs.Prelude.{◌≡◌, [], length, map, Ok, Err, IfOk, MatchResult, MatchOption, vec_items, string_bytes};
ghost use Rattle.rows.specs.Sorts.{kept};
ghost use Rattle.layers.specs.Layers.{marks_of};
ghost use Rattle.archive.specs.Calls.{request_of};
ghost use Rattle.manifests.specs.Manifests.{indexed};
ghost use Rattle.scripts.specs.Scripts.{requests_of};
ghost use Rattle.replies.specs.Replies.{call_name};
ghost use Rattle.refits.specs.Judging.{layer_name, base_of, layer_of, layers_from, calls_of};
ghost use Rattle.refits.specs.Steps.{Reads};

use crate::stop::Stop;
use archive::call::Call;
use base::Manifest;
use layer_files::read::read;
use layers::layer::Layer;
use manifests::fault::ManifestFault;
use manifests::index::index;
use replies::lines::unreadable_line;
use replies::names::call_name;
use reports::refusal::Reason;
use rows::row::Row;
use scripts::script::{Script, read_script};
use std::alloc::{AllocError, Global};
use trees::entry::Entry;

// The tree of a manifest's text, over rows that are lent for it.
fn manifest<'a>(text: &[u8], rows: &'a mut [Row<Entry>]) -> Result<Manifest<'a>, ManifestFault>
    ensures { MatchResult result (λ m. indexed (length rows.old) text.now ≡ Ok (kept m.rows)) (λ f. indexed (length rows.old) text.now ≡ Err f) }
{
    let count = index(text, rows)?;
    Manifest::read(text, &rows[..count])
}

// The tree of the base, over rows that are lent for it.
pub(crate) fn read_base<'a>(
    heap: Global,
    text: &[u8],
    rows: &'a mut [Row<Entry>],
) -> Result<Manifest<'a>, Stop>
    requires { length rows.old ≡ 1024 }
    ensures { Reads (λ m. kept m.rows) result (base_of text.now) }
{
    match manifest(text, rows) {
        Ok(tree) => Ok(tree),
        Err(fault) => Err(Stop::refused(heap, "base.mtree", Reason::Manifest(fault))),
    }
}

fn layer_name(heap: Global, number: usize) -> Result<String, AllocError>
    ensures { IfOk result (λ s. string_bytes s ≡ layer_name number) }
{
    if number < 10 {
        format!(in heap; "0{number}.lay")
    } else {
        format!(in heap; "{number}.lay")
    }
}

// The layer of the file with that number.
fn read_layer(heap: Global, number: usize, file: &[u8]) -> Result<Layer, Stop>
    ensures { Reads marks_of result (layer_of number file.now) }
{
    let mut layer = Layer::new();
    match read(file, &mut layer) {
        Ok(()) => Ok(layer),
        Err(fault) => {
            let name = layer_name(heap, number)?;
            Err(Stop::refused(heap, name.as_str(), Reason::Layer(fault)))
        }
    }
}

// The layers of the files, which are numbered from 1.
pub(crate) fn read_layers(heap: Global, files: &[Vec<u8>]) -> Result<Vec<Layer>, Stop>
    ensures { Reads (λ v. map marks_of v.items) result (layers_from 1 [] (map vec_items files.now)) }
{
    let mut layers = Vec::new(heap);
    for (i, file) in files.iter().enumerate() {
        let layer = read_layer(heap, i + 1, file.as_slice())?;
        layers.push(layer).map_err(AllocError::from)?;
    }
    Ok(layers)
}

// The calls of the script.
pub(crate) fn read_calls(heap: Global, text: &[u8]) -> Result<Script, Stop>
    ensures { Reads requests_of result (calls_of text.now) }
{
    match read_script(heap, text)? {
        Ok(script) => Ok(script),
        Err(number) => Err(Stop::Refused(unreadable_line(heap, number)?)),
    }
}

// The names of the calls before the filing, and of those behind it.
#[derive(Drop)]
pub(crate) struct Names {
    pub first: Vec<&'static str>,
    pub later: Vec<&'static str>,
}

fn names_of(heap: Global, calls: &[Call]) -> Result<Vec<&'static str>, AllocError>
    ensures { IfOk result (λ v. map (λ s. s.now) v.items ≡ map (λ c. call_name (request_of c)) calls.now) }
{
    let mut names = Vec::new(heap);
    for call in calls {
        names.push(call_name(call))?;
    }
    Ok(names)
}

impl Names {
    pub(crate) fn of(heap: Global, script: &Script) -> Result<Names, AllocError>
        ensures first { IfOk result (λ n. map (λ s. s.now) n.first.items ≡ map (λ c. call_name (request_of c)) script.now.first.items) }
        ensures later { IfOk result (λ n. MatchOption script.now.later (n.later.items ≡ []) (λ cs. map (λ s. s.now) n.later.items ≡ map (λ c. call_name (request_of c)) cs.items)) }
    {
        let later = match &script.later {
            Some(calls) => names_of(heap, calls.as_slice())?,
            None => Vec::new(heap),
        };
        Ok(Names {
            first: names_of(heap, script.first.as_slice())?,
            later,
        })
    }
}
