// A refit: layers laid over a base, calls on them, the new layer filed between them and squashed with the others.
ghost use Rattle.std.specs.Prelude.{◌≡◌, ◌+◌, ◌-◌, ◌++◌, length, take, map, Ok, Err, IfOk, OnErr, IsOkAnd, MatchResult};
ghost use Rattle.std.specs.Result.{result_map_both};
ghost use Rattle.std.specs.Vec.{vec_len, vec_capacity};
ghost use Rattle.paths.specs.Steps.{and_then};
ghost use Rattle.trees.specs.Buffers.{fitted, put_front};
ghost use Rattle.marks.specs.Squash.{squashed};
ghost use Rattle.layers.specs.Layers.{marks_of};
ghost use Rattle.layer_files.specs.Files.{encoded};
ghost use Rattle.sessions.specs.Sessions.{marks_in, seen_rows};
ghost use Rattle.archive.specs.Calls.{request_of, response_of, room_for};
ghost use Rattle.archive.specs.Runs.{answers, opened};
ghost use Rattle.archive.specs.Groups.{squash_of, grouped, laid_all};
ghost use Rattle.archive.specs.Refits.{Filed, Regrouped};

use crate::call::Call;
use crate::filing::{Filed, refile};
use crate::regroup::{regroup, squashed};
use crate::reply::Reply;
use layer_files::write::write;
use layers::layer::Layer;
use sessions::session::{Sealed, Session};
use trees::fault::Fault;
use trees::tree::Tree;

// What is done in a refit: the order in which the layers below are squashed, and the calls before and after the filing.
#[derive(Drop)]
pub struct Plan {
    pub order: Vec<usize>,
    pub first: Vec<Call>,
    pub second: Vec<Call>,
}

// The tree that was lent or given, how many rows the squash of the layers below has, and the lengths of the files, or why one was
// not written.
#[derive(Drop)]
pub struct Refitted<T> {
    pub base: T,
    pub rows: usize,
    pub files: Result<Files, Fault>,
}

// The length of the new layer's file, and that of the file of all layers.
#[derive(Drop)]
pub struct Files {
    pub layer: usize,
    pub whole: Result<usize, Fault>,
}

// The layers, squashed in an order, laid on a tree, and how many rows the squash has.
fn pile_on<T: Tree + Drop>(
    base: T,
    layers: Vec<Layer>,
    order: &[usize],
) -> Result<(usize, Sealed<T>), Fault>
    ensures exact { MatchResult result (λ p. grouped order.now (map marks_of layers.items) ≡ Ok (marks_in p.1.session)) (λ f. grouped order.now (map marks_of layers.items) ≡ Err f) }
    ensures count { IfOk result (λ p. p.0 ≡ length (marks_in p.1.session)) }
    ensures rows { IfOk result (λ p. seen_rows T.Tree.entries p.1.session ≡ laid_all (map marks_of layers.items) (T.Tree.entries base).rows) }
    ensures lower { IfOk result (λ p. p.1.session.lower ≡ base) }
{
    let under = regroup(layers, order)?;
    let rows = under.count();
    Ok((rows, Session::lay(under, base).seal()))
}

// Squashes two layers and writes the squash. A refusal leaves the buffer as it was.
fn write_squash(upper: &Layer, lower: &Layer, buffer: &mut [u8]) -> Result<usize, Fault>
    ensures answer { result ≡ and_then (squash_of (marks_of upper.now) (marks_of lower.now)) (λ m. fitted (encoded m) (length buffer.old)) }
    ensures after { MatchResult result (λ n. buffer.new ≡ put_front (encoded (squashed (marks_of upper.now) (marks_of lower.now))) buffer.old) (λ f. buffer.new ≡ buffer.old) }
{
    let whole = squashed(upper, lower)?;
    write(&whole, buffer)
}

// The length of a file, and the layer of the session that stands on it.
fn parted<T: Drop>(filed: Filed<T>) -> Result<(usize, Layer), Fault>
    ensures { MatchResult filed (λ f. IsOkAnd result (λ r. (r.0 ≡ f.0) × (r.1 ≡ f.1.layer))) (λ f. result ≡ Err f) }
{
    let (len, session) = filed?;
    let (layer, _) = session.seal().part();
    Ok((len, layer))
}

// Writes the squash of the new layer, where it was filed, and the layer below.
fn write_files(
    filed: Result<(usize, Layer), Fault>,
    lower: &Layer,
    buffer: &mut [u8],
) -> Result<Files, Fault>
    ensures { MatchResult filed (λ f. IsOkAnd result (λ r. (r.layer ≡ f.0) × (r.whole ≡ and_then (squash_of (marks_of f.1) (marks_of lower.now)) (λ m. fitted (encoded m) (length buffer.old))) × MatchResult r.whole (λ n. buffer.new ≡ put_front (encoded (squashed (marks_of f.1) (marks_of lower.now))) buffer.old) (λ e. buffer.new ≡ buffer.old))) (λ e. (result ≡ Err e) × (buffer.new ≡ buffer.old)) }
{
    let (layer, upper) = filed?;
    let whole = write_squash(&upper, lower, buffer);
    Ok(Files { layer, whole })
}

// Squashes the layers, the lowest first, in an order and lays the result on the base. On a session over that pile it makes
// the first calls, files the layer and lays it there again, and makes the second calls; it then writes the squash of all
// layers. Where the layers cannot be squashed, or there is no room for all replies, nothing else is done; where a file cannot be
// written nothing after it is done.
pub fn refit<T: Tree + Drop>(
    base: T,
    layers: Vec<Layer>,
    plan: Plan,
    replies: &mut Vec<Reply>,
    layer_file: &mut [u8],
    whole_file: &mut [u8],
) -> Result<Refitted<T>, Fault>
    ensures answer { MatchResult result (λ t. and_then (grouped plan.order.items (map marks_of layers.items)) (λ m. room_for (vec_capacity replies.old - vec_len replies.old) (vec_len plan.first + vec_len plan.second)) ≡ Ok tt) (λ f. and_then (grouped plan.order.items (map marks_of layers.items)) (λ m. room_for (vec_capacity replies.old - vec_len replies.old) (vec_len plan.first + vec_len plan.second)) ≡ Err f) }
    ensures refused { OnErr result ((replies.new ≡ replies.old) × (layer_file.new ≡ layer_file.old) × (whole_file.new ≡ whole_file.old)) }
    ensures lower { IfOk result (λ t. t.base ≡ base) }
    ensures pile { IfOk result (λ t. IfOk (grouped plan.order.items (map marks_of layers.items)) (λ m. t.rows ≡ length m)) }
    ensures replay { IfOk result (λ t. take (vec_len replies.old + vec_len plan.first) (map response_of replies.new.items) ≡ map response_of replies.old.items ++ answers (opened (laid_all (map marks_of layers.items) (T.Tree.entries base).rows)) (map request_of plan.first.items)) }
    ensures filing { IfOk result (λ t. Filed (laid_all (map marks_of layers.items) (T.Tree.entries base).rows) (map request_of plan.first.items) (map request_of plan.second.items) (map response_of replies.old.items) (map response_of replies.new.items) (result_map_both (λ f. f.layer) (λ f. f) t.files) layer_file.old layer_file.new) }
    ensures regrouping { IfOk result (λ t. MatchResult t.files (λ f. Regrouped (T.Tree.entries base).rows (map marks_of layers.items) plan.order.items (map request_of (plan.first.items ++ plan.second.items)) f.whole whole_file.old whole_file.new) (λ f. whole_file.new ≡ whole_file.old)) }
{
    let Plan {
        order,
        first,
        second,
    } = plan;
    let (rows, pile) = pile_on(base, layers, order.as_slice())?;
    let filed = refile(&pile, first, layer_file, &pile, second, replies)?;
    let upper = parted(filed);
    let (lower, base) = pile.part();
    let files = write_files(upper, &lower, whole_file);
    Ok(Refitted { base, rows, files })
}
