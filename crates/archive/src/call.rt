// A call on a session, with all that is handed to it. A path is any byte string: the call judges it.
use edits::action::Action;

#[derive(Drop)]
pub enum Call {
    Look(Vec<u8>),
    Next {
        path: Vec<u8>,
        after: Vec<u8>,
        buffer: Vec<u8>,
    },
    List {
        buffer: Vec<u8>,
    },
    Room,
    Need(Vec<u8>),
    // One of the four edits.
    Edit(Vec<u8>, Action),
}
