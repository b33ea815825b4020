// The names of calls.
ghost use Rattle.std.specs.Prelude.{◌≡◌};
ghost use Rattle.archive.specs.Calls.{request_of};
ghost use Rattle.replies.specs.Replies.{edit_name, call_name};

use archive::call::Call;
use edits::action::Action;

fn edit_name(action: &Action) -> &'static str
    ensures { result.now ≡ edit_name action.now }
{
    match action {
        Action::Put(_) => "put",
        Action::Mkdir(_) => "mkdir",
        Action::Chmod(_) => "chmod",
        Action::Remove => "remove",
    }
}

// The word that asks for such a call in a script.
pub fn call_name(call: &Call) -> &'static str
    ensures { result.now ≡ call_name (request_of call.now) }
{
    match call {
        Call::Look(_) => "look",
        Call::Next { .. } => "next",
        Call::List { .. } => "list",
        Call::Room => "room",
        Call::Need(_) => "need",
        Call::Edit(_, action) => edit_name(action),
    }
}
