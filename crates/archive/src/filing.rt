// Filing: the layer of a session is written, and what was written is laid on a tree.
ghost use Rattle.std.specs.Prelude.{◌≡◌, ◌+◌, ◌-◌, ◌++◌, length, take, map, Ok, Err, IfOk, OnOk, OnErr, MatchResult};
ghost use Rattle.std.specs.Vec.{vec_len, vec_capacity};
ghost use Rattle.trees.specs.Buffers.{fitted, put_front};
ghost use Rattle.layer_files.specs.Files.{encoded};
ghost use Rattle.layer_files.specs.Reads.{decoded};
ghost use Rattle.sessions.specs.Sessions.{marks_in};
ghost use Rattle.archive.specs.Calls.{request_of, response_of, room_for};
ghost use Rattle.archive.specs.Answers.{plain_in};
ghost use Rattle.archive.specs.Runs.{answers, afterwards, opened};
ghost use Rattle.archive.specs.Filings.{told_in, Filing};

use crate::call::Call;
use crate::replay::{check_room, make};
use crate::reply::Reply;
use layer_files::read::read;
use layer_files::write::write;
use layers::layer::Layer;
use sessions::session::Session;
use trees::fault::Fault;
use trees::tree::Tree;

// Seals a session, parts it and writes its layer, and lays the layer that is read from the buffer on a tree. It is refused where the
// buffer is too short, which is then left alone.
pub fn file<T: Drop, U: Drop>(
    session: Session<T>,
    buffer: &mut [u8],
    tree: U,
) -> Result<(usize, Session<U>), Fault>
    ensures answer { MatchResult result (λ r. fitted (encoded (marks_in session)) (length buffer.old) ≡ Ok r.0) (λ f. fitted (encoded (marks_in session)) (length buffer.old) ≡ Err f) }
    ensures after { buffer.new ≡ put_front (encoded (marks_in session)) buffer.old }
    ensures reads_back { IfOk result (λ r. decoded (take r.0 buffer.new) ≡ Ok (marks_in session)) }
    ensures marks { IfOk result (λ r. marks_in r.1 ≡ marks_in session) }
    ensures lower { IfOk result (λ r. r.1.lower ≡ tree) }
{
    let (layer, _) = session.seal().part();
    let len = write(&layer, buffer)?;
    let mut filed = Layer::new();
    read(&buffer[..len], &mut filed).unwrap();
    Ok((len, Session::lay(filed, tree)))
}

// The length of the file with the session that stands on it, or why it was not written.
pub type Filed<T> = Result<(usize, Session<T>), Fault>;

// Opens a session over a tree and makes the first calls, files its layer onto another tree and makes the second calls there.
// A vector without room for all replies is refused like any short buffer, before the first call.
pub fn refile<T: Tree + Drop, U: Tree + Drop>(
    tree: T,
    first: Vec<Call>,
    buffer: &mut [u8],
    other: U,
    second: Vec<Call>,
    replies: &mut Vec<Reply>,
) -> Result<Filed<U>, Fault>
    ensures answer { MatchResult result (λ r. room_for (vec_capacity replies.old - vec_len replies.old) (vec_len first + vec_len second) ≡ Ok tt) (λ f. room_for (vec_capacity replies.old - vec_len replies.old) (vec_len first + vec_len second) ≡ Err f) }
    ensures exact { IfOk result (λ r. Filing (T.Tree.entries tree).rows (U.Tree.entries other).rows (map request_of first.items) (map request_of second.items) (map response_of replies.old.items) (map response_of replies.new.items) (told_in U.Tree.entries r) buffer.old buffer.new) }
    ensures lower { IfOk result (λ r. IfOk r (λ f. f.1.lower ≡ other)) }
    ensures filing { IfOk result (λ r. OnOk r ((U.Tree.entries other).rows ≡ (T.Tree.entries tree).rows → map response_of replies.new.items ≡ map response_of replies.old.items ++ answers (opened (T.Tree.entries tree).rows) (map request_of (first.items ++ second.items)))) }
    ensures after { IfOk result (λ r. IfOk r (λ f. (U.Tree.entries other).rows ≡ (T.Tree.entries tree).rows → plain_in U.Tree.entries f.1 ≡ afterwards (opened (T.Tree.entries tree).rows) (map request_of (first.items ++ second.items)))) }
    ensures refused { OnErr result ((replies.new ≡ replies.old) × (buffer.new ≡ buffer.old)) }
{
    check_room(replies, first.len() + second.len())?;
    let mut session = Session::open(tree);
    make(&mut session, first, replies);
    let (len, mut session) = match file(session, buffer, other) {
        Ok(filed) => filed,
        Err(fault) => return Ok(Err(fault)),
    };
    make(&mut session, second, replies);
    Ok(Ok((len, session)))
}
