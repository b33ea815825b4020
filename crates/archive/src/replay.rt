// Calls made on a session, and a list of them made again.
ghost use Rattle.std.specs.Prelude.{◌≡◌, ◌+◌, ◌-◌, ◌≤◌, ◌++◌, map, Ok, Err, IfOk, OnErr, MatchResult};
ghost use Rattle.std.specs.Vec.{vec_len, vec_capacity};
ghost use Rattle.edits.specs.Edits.{answered};
ghost use Rattle.sessions.specs.Sessions.{refusal_over, marks_in, marks_after, rows_below};
ghost use Rattle.archive.specs.Calls.{request_of, response_of, room_for};
ghost use Rattle.archive.specs.Answers.{plain_in, answer, after};
ghost use Rattle.archive.specs.Runs.{answers, afterwards, opened};

use crate::call::Call;
use crate::reply::Reply;
use edits::action::Action;
use edits::editable::Editable;
use listing::list;
use sessions::session::Session;
use trees::fault::Fault;
use trees::tree::Tree;

// Makes one of the four edits, by its name.
fn edit<T: Tree>(session: &mut Session<T>, path: &[u8], action: Action) -> Result<(), Fault>
    ensures answer { result ≡ answered (refusal_over (marks_in session.old) (rows_below T.Tree.entries session.old) path.now action) }
    ensures marks { marks_in session.new ≡ marks_after (marks_in session.old) (rows_below T.Tree.entries session.old) path.now action }
    ensures lower { session.new.lower ≡ session.old.lower }
{
    match action {
        Action::Put(entry) => session.put(path, entry),
        Action::Mkdir(mode) => session.mkdir(path, mode),
        Action::Chmod(mode) => session.chmod(path, mode),
        Action::Remove => session.remove(path),
    }
}

// Makes one call.
#[tactic(auto, using(crate::proofs::Edits::same_room, crate::proofs::Edits::same_need, crate::proofs::Edits::edit_reply, crate::proofs::Edits::edit_after))]
pub fn perform<T: Tree>(session: &mut Session<T>, call: Call) -> Reply
    ensures reply { response_of result ≡ answer (plain_in T.Tree.entries session.old) (request_of call) }
    ensures after { plain_in T.Tree.entries session.new ≡ after (plain_in T.Tree.entries session.old) (request_of call) }
    ensures lower { session.new.lower ≡ session.old.lower }
{
    match call {
        Call::Look(path) => Reply::Looked(session.look(path.as_slice())),
        Call::Next {
            path,
            after,
            mut buffer,
        } => {
            let len = session.next(path.as_slice(), after.as_slice(), buffer.as_mut_slice());
            Reply::Next(len, buffer)
        }
        Call::List { mut buffer } => {
            let len = list(session, buffer.as_mut_slice());
            Reply::Listed(len, buffer)
        }
        Call::Room => Reply::Room(session.room()),
        Call::Need(path) => Reply::Need(session.need(path.as_slice())),
        Call::Edit(path, action) => Reply::Edited(edit(session, path.as_slice(), action)),
    }
}

// Makes the calls one after the other, and puts the replies behind those that are there. The room beyond theirs stays.
pub(crate) fn make<T: Tree>(session: &mut Session<T>, calls: Vec<Call>, replies: &mut Vec<Reply>)
    requires room { vec_len replies.old + vec_len calls ≤ vec_capacity replies.old }
    ensures replies { map response_of replies.new.items ≡ map response_of replies.old.items ++ answers (plain_in T.Tree.entries session.old) (map request_of calls.items) }
    ensures room { vec_len replies.new + (vec_capacity replies.old - (vec_len replies.old + vec_len calls)) ≤ vec_capacity replies.new }
    ensures after { plain_in T.Tree.entries session.new ≡ afterwards (plain_in T.Tree.entries session.old) (map request_of calls.items) }
    ensures lower { session.new.lower ≡ session.old.lower }
{
    for call in calls {
        replies.push(perform(session, call)).unwrap();
    }
}

// Refuses a vector that has no room for so many replies more.
pub(crate) fn check_room(replies: &Vec<Reply>, calls: usize) -> Result<(), Fault>
    ensures { result ≡ room_for (vec_capacity replies.now - vec_len replies.now) calls }
{
    if replies.capacity() - replies.len() < calls {
        return Err(Fault::ShortBuffer);
    }
    Ok(())
}

// Makes the calls one after the other, and puts the replies behind those that are there. A vector without room for all of them
// is refused like any short buffer, before the first call.
pub fn replay<T: Tree>(
    session: &mut Session<T>,
    calls: Vec<Call>,
    replies: &mut Vec<Reply>,
) -> Result<(), Fault>
    ensures answer { result ≡ room_for (vec_capacity replies.old - vec_len replies.old) (vec_len calls) }
    ensures replies { IfOk result (λ _. map response_of replies.new.items ≡ map response_of replies.old.items ++ answers (plain_in T.Tree.entries session.old) (map request_of calls.items)) }
    ensures after { IfOk result (λ _. plain_in T.Tree.entries session.new ≡ afterwards (plain_in T.Tree.entries session.old) (map request_of calls.items)) }
    ensures lower { session.new.lower ≡ session.old.lower }
    ensures refused { OnErr result ((session.new ≡ session.old) × (replies.new ≡ replies.old)) }
{
    check_room(replies, calls.len())?;
    make(session, calls, replies);
    Ok(())
}

// Opens a session over a tree and makes the calls on it. Where there is no room for the replies no call is made, and the tree is
// let go: one that is still needed is lent.
#[tactic(auto, using(crate::proofs::Opens::plain_open))]
pub fn replay_on<T: Tree + Drop>(
    tree: T,
    calls: Vec<Call>,
    replies: &mut Vec<Reply>,
) -> Result<Session<T>, Fault>
    ensures answer { MatchResult result (λ s. room_for (vec_capacity replies.old - vec_len replies.old) (vec_len calls) ≡ Ok tt) (λ f. room_for (vec_capacity replies.old - vec_len replies.old) (vec_len calls) ≡ Err f) }
    ensures replies { IfOk result (λ _. map response_of replies.new.items ≡ map response_of replies.old.items ++ answers (opened (T.Tree.entries tree).rows) (map request_of calls.items)) }
    ensures after { IfOk result (λ s. plain_in T.Tree.entries s ≡ afterwards (opened (T.Tree.entries tree).rows) (map request_of calls.items)) }
    ensures lower { IfOk result (λ s. s.lower ≡ tree) }
    ensures refused { OnErr result (replies.new ≡ replies.old) }
{
    let mut session = Session::open(tree);
    replay(&mut session, calls, replies)?;
    Ok(session)
}
