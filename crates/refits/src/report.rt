// The refit of what a folder holds.
ghost use Rattle.std.specs.Prelude.{◌≡◌, map, IfOk, vec_items};
ghost use Rattle.std.specs.Option.{option_map};
ghost use Rattle.std.specs.Result.{result_ok};
ghost use Rattle.refits.specs.Judging.{judged};
ghost use Rattle.refits.specs.Refits.{Refits};
ghost use Rattle.refits.specs.Steps.{held_whole, Ends};

use crate::given::{Names, read_base, read_calls, read_layers};
use crate::making::{LayerFile, make};
use crate::stop::Stop;
use crate::telling::tell;
use manifests::index::blank_row;
use manifests::reader::MOST_ROWS;
use std::alloc::{AllocError, Global};
use trees::fault::Fault;

// What is printed, the file of the new layer, and that of the squash of all layers, where it is not refused.
#[derive(Drop)]
pub struct Refit {
    pub text: Vec<u8>,
    pub layer: Vec<u8>,
    pub whole: Option<Vec<u8>>,
}

// The bytes of a file, where there is one.
fn bytes_of(file: Result<LayerFile, Fault>) -> Option<Vec<u8>>
    ensures { option_map vec_items result ≡ option_map (λ f. f.1) (result_ok (held_whole file)) }
{
    match file {
        Ok(file) => Some(file.bytes),
        Err(_) => None,
    }
}

// The refit, or its refusal, or want of memory.
fn make_refit(heap: Global, base: &[u8], layers: &[Vec<u8>], script: &[u8]) -> Result<Refit, Stop>
    ensures { Ends (judged base.now (map vec_items layers.now) script.now) result }
{
    let mut rows = vec![in heap; blank_row(); MOST_ROWS]?;
    let base = read_base(heap, base, rows.as_mut_slice())?;
    let layers = read_layers(heap, layers)?;
    let calls = read_calls(heap, script)?;
    let count = layers.len();
    let names = Names::of(heap, &calls)?;
    let made = make(heap, base, layers, calls)?;
    let text = tell(heap, count, &names, &made)?;
    Ok(Refit {
        text,
        layer: made.filed.bytes,
        whole: bytes_of(made.whole),
    })
}

// The refit of layers, the lowest first, over a manifest by the calls of a script, or the one line of a refusal. The layers are
// numbered from 1.
pub fn report_refit(
    heap: Global,
    base: &[u8],
    layers: &[Vec<u8>],
    script: &[u8],
) -> Result<Result<Refit, String>, AllocError>
    ensures { IfOk result (λ r. Refits base.now (map vec_items layers.now) script.now r) }
{
    match make_refit(heap, base, layers, script) {
        Ok(refit) => Ok(Ok(refit)),
        Err(Stop::Refused(line)) => Ok(Err(line)),
        Err(Stop::Memory(error)) => Err(error),
    }
}
