// The refit itself: the calls are made, and both files written.
ghost use Rattle.std.specs.Prelude.{◌≡◌, [], ◌++◌, true, is_ok, length, map, take, Ok, Err, IfOk, MatchResult, vec_items};
ghost use Rattle.std.specs.Option.{option_map, unwrap_or};
ghost use Rattle.std.specs.Result.{IsOkAnd, result_map_both};
ghost use Rattle.layers.specs.Layers.{marks_of};
ghost use Rattle.layer_files.specs.Reads.{decoded};
ghost use Rattle.archive.specs.Calls.{request_of, response_of};
ghost use Rattle.archive.specs.Groups.{grouped, laid_all};
ghost use Rattle.archive.specs.Refits.{Filed, Regrouped};
ghost use Rattle.scripts.specs.Scripts.{requests_of};
ghost use Rattle.refits.specs.Judging.{squash_in};
ghost use Rattle.refits.specs.Steps.{held, file_in, Cut, Gives};

use crate::stop::Stop;
use archive::call::Call;
use archive::refit::{Files, Plan, Refitted, refit};
use archive::reply::Reply;
use layer_files::read::read;
use layers::layer::Layer;
use manifests::reader::MOST_BYTES;
use reports::refusal::Reason;
use scripts::script::Script;
use std::alloc::{AllocError, Global};
use trees::fault::Fault;
use trees::tree::Tree;

// A layer's file, and how many rows the layer has.
#[derive(Drop)]
pub(crate) struct LayerFile {
    pub rows: usize,
    pub bytes: Vec<u8>,
}

// How many rows the squash of the layers below has, the replies to all calls, the layer that was filed, and the squash of all
// layers, or its refusal.
#[derive(Drop)]
pub(crate) struct Made {
    pub rows: usize,
    pub replies: Vec<Reply>,
    pub filed: LayerFile,
    pub whole: Result<LayerFile, Fault>,
}

// The file that is the front of a buffer. Its rows are counted in the layer that is read from it.
fn front(buffer: Vec<u8>, len: usize) -> LayerFile
    requires { is_ok (decoded (take len (vec_items buffer))) ≡ true }
    ensures { file_in (vec_items buffer) len ≡ Ok (held result) }
{
    let mut bytes = buffer;
    bytes.truncate(len);
    let mut layer = Layer::new();
    read(bytes.as_slice(), &mut layer).unwrap();
    LayerFile {
        rows: layer.count(),
        bytes,
    }
}

// The same of a squash, where there is one.
fn front_or_fault(buffer: Vec<u8>, len: Result<usize, Fault>) -> Result<LayerFile, Fault>
    requires { IfOk len (λ n. is_ok (decoded (take n (vec_items buffer))) ≡ true) }
    ensures { Cut len (vec_items buffer) result }
{
    match len {
        Ok(len) => Ok(front(buffer, len)),
        Err(fault) => Err(fault),
    }
}

// What the library gives: how many rows the squash of the layers below has, the replies to all calls, and the lengths of the files.
#[derive(Drop)]
pub(crate) struct Run {
    pub rows: usize,
    pub replies: Vec<Reply>,
    pub files: Result<Files, Fault>,
}

// The refit, with a vector of its own for the replies, in which there is room for all of them.
fn run_all<T: Tree + Drop>(
    heap: Global,
    base: T,
    layers: Vec<Layer>,
    plan: Plan,
    layer_file: &mut [u8],
    whole_file: &mut [u8],
) -> Result<Result<Run, Fault>, AllocError>
    ensures refused { IfOk result (λ r. MatchResult r (λ t. is_ok (grouped plan.order.items (map marks_of layers.items)) ≡ true) (λ f. grouped plan.order.items (map marks_of layers.items) ≡ Err f)) }
    ensures pile { IfOk result (λ r. IfOk r (λ t. IfOk (grouped plan.order.items (map marks_of layers.items)) (λ m. t.rows ≡ length m))) }
    ensures filing { IfOk result (λ r. IfOk r (λ t. Filed (laid_all (map marks_of layers.items) (T.Tree.entries base).rows) (map request_of plan.first.items) (map request_of plan.second.items) [] (map response_of t.replies.items) (result_map_both (λ f. f.layer) (λ f. f) t.files) layer_file.old layer_file.new)) }
    ensures regrouping { IfOk result (λ r. IfOk r (λ t. MatchResult t.files (λ f. Regrouped (T.Tree.entries base).rows (map marks_of layers.items) plan.order.items (map request_of (plan.first.items ++ plan.second.items)) f.whole whole_file.old whole_file.new) (λ f. whole_file.new ≡ whole_file.old))) }
{
    let mut replies = Vec::with_capacity(heap, plan.first.len() + plan.second.len())?;
    match refit(base, layers, plan, &mut replies, layer_file, whole_file) {
        Ok(Refitted { rows, files, .. }) => Ok(Ok(Run {
            rows,
            replies,
            files,
        })),
        Err(fault) => Ok(Err(fault)),
    }
}

// What is made, with the files that stand in two buffers. Every layer fits those, so that of the new one was written.
fn with_files(run: Run, layer: Vec<u8>, whole: Vec<u8>) -> Made
    requires filed { IsOkAnd run.files (λ f. is_ok (decoded (take f.layer (vec_items layer))) ≡ true) }
    requires whole { IfOk run.files (λ f. IfOk f.whole (λ n. is_ok (decoded (take n (vec_items whole))) ≡ true)) }
    ensures rows { result.rows ≡ run.rows }
    ensures replies { result.replies ≡ run.replies }
    ensures filed { IfOk run.files (λ f. file_in (vec_items layer) f.layer ≡ Ok (held result.filed)) }
    ensures whole { IfOk run.files (λ f. Cut f.whole (vec_items whole) result.whole) }
{
    let lens = run.files.unwrap();
    Made {
        rows: run.rows,
        replies: run.replies,
        filed: front(layer, lens.layer),
        whole: front_or_fault(whole, lens.whole),
    }
}

// The calls behind the filing; none, where there is no line `file`.
fn later_calls(heap: Global, later: Option<Vec<Call>>) -> Vec<Call>
    ensures { map request_of result.items ≡ unwrap_or (option_map (λ cs. map request_of cs.items) later) [] }
{
    match later {
        Some(calls) => calls,
        None => Vec::new(heap),
    }
}

// Makes the calls over the layers, and writes the layer that is filed and the squash of all.
pub(crate) fn make<T: Tree + Drop>(
    heap: Global,
    base: T,
    layers: Vec<Layer>,
    calls: Script,
) -> Result<Made, Stop>
    ensures { Gives (laid_all (map marks_of layers.items) (T.Tree.entries base).rows) (requests_of calls) result (squash_in (map marks_of layers.items)) }
{
    let mut layer = vec![in heap; 0; MOST_BYTES]?;
    let mut whole = vec![in heap; 0; MOST_BYTES]?;
    let plan = Plan {
        order: Vec::new(heap),
        first: calls.first,
        second: later_calls(heap, calls.later),
    };
    let made = run_all(
        heap,
        base,
        layers,
        plan,
        layer.as_mut_slice(),
        whole.as_mut_slice(),
    )?;
    match made {
        Ok(all) => Ok(with_files(all, layer, whole)),
        Err(fault) => Err(Stop::refused(heap, "squash", Reason::Tree(fault))),
    }
}
